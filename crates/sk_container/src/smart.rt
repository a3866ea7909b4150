//! The container, and its elements.
ghost use Rattle.std.specs.Prelude.{◌≡◌, ◌≢◌, ◌∷◌, [], ℕ, ◌+◌, ◌<◌, ◌≤◌, None, Some, IfSome, IsSomeAnd, IfOk, IfErr, OnOk, OnErr};
ghost use Rattle.sk_base.specs.Shape.{flat_of};
ghost use Rattle.sk_spaces.specs.declared.step.Step.{Step};
ghost use Rattle.sk_copy_states.specs.Sources.{MayRead};
ghost use Rattle.sk_coherence_laws.specs.Acquires.{Acquires};
ghost use Rattle.sk_coherence_laws.specs.Directory.{copy_at};
ghost use Rattle.sk_coherence_laws.specs.Owned.{IsOwned};
ghost use Rattle.sk_coherence_laws.specs.Serves.{Serves};
ghost use Rattle.sk_coherence_laws.specs.Steps.{Traces};
ghost use Rattle.sk_container.specs.Cells.{HasCell};
ghost use Rattle.sk_container.specs.Changes.{Writes};
ghost use Rattle.sk_container.specs.Faults.{IsPlaceFault};
ghost use Rattle.sk_container.specs.Lines.{IsPlacing, IsHosting, TracesThen};
ghost use Rattle.sk_container.specs.Parts.{IsPart, IsHostOf, IsHostCopy};
ghost use Rattle.sk_container.specs.Smart.{HasStore};

use crate::faults::PlaceFault;
use crate::host::{acquire_part, read_at, write_at};
use sk_base::{Cell, Range, Shape, flat};
use sk_coherence::Directory;
use sk_copies::{CopyId, StoreId};
use sk_spaces::{Journal, Memory};
use std::alloc::Global;
use std::marker::Model;

/// A container: the store with its cells, and its shape.
#[derive(Debug, Drop)]
pub struct Smart {
    store: StoreId,
    shape: Shape,
}

impl Model for Smart {
    ghost use Rattle.sk_container.specs.Smart.{SmartView};

    ghost Value = { SmartView };

    ghost view = { λ smart. record { store = smart.store.id; shape = smart.shape } };
}

impl Smart {
    /// The container over a store that is there already.
    pub fn over(store: StoreId, shape: Shape) -> Smart
        ensures { result ≡ record { store = store.id; shape = shape } }
    {
        Smart { store, shape }
    }

    /// The store with its cells.
    pub fn store(&self) -> StoreId
        ensures { result.id ≡ self.now.store }
    {
        self.store
    }

    /// Its sizes.
    pub fn shape(&self) -> &Shape
        ensures { result.now ≡ self.now.shape }
    {
        &self.shape
    }

    /// The element at a place, which is noted as read.
    pub fn read<J: Journal>(
        &self,
        alloc: Global,
        dir: &mut Directory<J>,
        place: &[i64],
    ) -> Result<Cell, PlaceFault>
        requires store { HasStore dir.old self.now }
        requires owned { IfSome (flat_of self.now.shape place.now) (λ i. IsOwned dir.old self.now.store i) }
        ensures cell { IfOk result (λ cell. IsSomeAnd (flat_of self.now.shape place.now) (λ i. HasCell dir.old self.now.store i cell)) }
        ensures noted { OnOk result (IfSome (flat_of self.now.shape place.now) (λ i.
            TracesThen (IsHosting dir.old self.now.store i (i + 1)) (IsHostOf dir.old self.now.store i (i + 1))
            (λ copy. Step.Read copy i (i + 1)) dir.old dir.new)) }
        ensures fault { IfErr result (IsPlaceFault self.now.shape place.now) }
        ensures outside { flat_of self.now.shape place.now ≡ None → dir.new ≡ dir.old }
        ensures serves { Serves dir.old dir.new }
        ensures traced { OnErr result (IfSome (flat_of self.now.shape place.now) (λ i.
            Traces (IsHosting dir.old self.now.store i (i + 1)) dir.old dir.new)) }
    {
        dir.is_sound();
        let Some(index) = flat(&self.shape, place) else {
            return Err(PlaceFault::Index);
        };
        let cell = read_at(alloc, dir, self.store, index)?;
        Ok(cell)
    }

    /// Puts a cell at a place.
    pub fn write<J: Journal>(
        &self,
        alloc: Global,
        dir: &mut Directory<J>,
        place: &[i64],
        cell: Cell,
    ) -> Result<(), PlaceFault>
        requires store { HasStore dir.old self.now }
        ensures written { OnOk result (IsSomeAnd (flat_of self.now.shape place.now) (λ i.
            Writes dir.old dir.new self.now.store i (i + 1) (cell ∷ []))) }
        ensures noted { OnOk result (IfSome (flat_of self.now.shape place.now) (λ i.
            TracesThen (IsPlacing dir.old self.now.store i (i + 1)) (IsHostOf dir.old self.now.store i (i + 1))
            (λ copy. Step.Poke copy i cell) dir.old dir.new)) }
        ensures fault { IfErr result (IsPlaceFault self.now.shape place.now) }
        ensures outside { flat_of self.now.shape place.now ≡ None → dir.new ≡ dir.old }
        ensures err { OnErr result (Serves dir.old dir.new) }
        ensures traced { OnErr result (IfSome (flat_of self.now.shape place.now) (λ i.
            Traces (IsPlacing dir.old self.now.store i (i + 1)) dir.old dir.new)) }
    {
        dir.is_sound();
        let Some(index) = flat(&self.shape, place) else {
            return Err(PlaceFault::Index);
        };
        write_at(alloc, dir, self.store, index, cell)?;
        Ok(())
    }

    /// A copy on the host with a range of its elements, pinned once more, which may be read there. The range lies in one block of
    /// the host.
    pub fn part<J: Journal>(
        &self,
        alloc: Global,
        dir: &mut Directory<J>,
        range: Range,
    ) -> Result<CopyId, Memory>
        requires store { HasStore dir.old self.now }
        requires part { IsPart dir.old self.now.store range.lo range.hi }
        requires owned { (i : ℕ) → range.lo ≤ i → i < range.hi → IsOwned dir.old self.now.store i }
        ensures ok { IfOk result (λ copy. Acquires dir.old dir.new copy.id) }
        ensures host { IfOk result (λ copy. IsHostCopy dir.old dir.new self.now.store copy.id range.lo range.hi) }
        ensures readable { IfOk result (λ copy. MayRead (copy_at dir.new copy.id) range.lo range.hi) }
        ensures err { OnErr result (Serves dir.old dir.new) }
        ensures traced { Traces (IsHosting dir.old self.now.store range.lo range.hi) dir.old dir.new }
    {
        acquire_part(alloc, dir, self.store, range)
    }
}
