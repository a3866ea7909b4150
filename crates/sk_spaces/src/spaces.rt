//! The memories of a run with their journal.
ghost use Rattle.std.specs.Prelude.{◌≡◌, ℕ, ◌+◌, ◌<◌, ◌≤◌, [], ◌∷◌, length, Some, None, IfSome, IsSome, IfOk, IfErr, OnOk, OnErr, IsOk, option_map, unwrap_or};
ghost use Rattle.sk_spaces.specs.Blocks.{Reaches, written, copied, cell_of};
ghost use Rattle.sk_spaces.specs.Memories.{fresh_block, LacksRoom, is_far};
ghost use Rattle.sk_spaces.specs.Journal.{Notes};
ghost use Rattle.sk_spaces.specs.Spaces.{SpacesView, block_at, used_at, name_or, OnlyNotes, Allocates, Changes, Stays, IsSpaceFault};

use crate::faults::SpaceFault;
use crate::journal::Journal;
use crate::memories::Memories;
use crate::memory::Memory;
use crate::step::Step;
use sk_base::{Cell, Range};
use std::alloc::Global;
use std::marker::Model;

/// A block of cells, by its number.
#[derive(Clone, Copy, PartialEq, Eq, Debug)]
pub struct Block {
    pub id: u64,
}

/// Why there are no memories: want of memory. The journal is as it was.
#[derive(Debug, Drop)]
pub struct Unmade<J> {
    pub journal: J,
}

/// The memories of a run: space 0 is the host's, without end, and the others are those of the ranks. Each change is noted
/// in the journal.
#[derive(Drop)]
pub struct Spaces<J: Journal> {
    memories: Memories,
    named: Option<Step>,
    journal: J,
}

impl<J: Journal> Model for Spaces<J> {
    ghost use Rattle.sk_spaces.specs.Spaces.{SpacesView};

    ghost Value = { SpacesView };

    ghost view = { λ s. record { memories = s.memories; named = s.named; journal = J.means s.journal } };
}

impl<J: Journal> Spaces<J> {
    /// Empty memories of so many ranks, with so many cells each.
    pub fn new(alloc: Global, capacity: u32, ranks: u32, journal: J) -> Result<Spaces<J>, Unmade<J>>
        ensures made { IfOk result (λ spaces. spaces ≡ record {
          memories = record { blocks = []; next = 0; ranks = ranks; capacity = capacity };
          named = None;
          journal = J.means journal;
        }) }
        ensures back { IfErr result (λ unmade. unmade.journal ≡ journal) }
    {
        match Memories::new(alloc, capacity, ranks) {
            Ok(memories) => Ok(Spaces {
                memories,
                named: None,
                journal,
            }),
            Err(_) => Err(Unmade { journal }),
        }
    }

    /// The cells that each rank has.
    pub fn capacity(&self) -> u32
        ensures { result ≡ self.now.memories.capacity }
    {
        self.memories.capacity()
    }

    /// The number that the next block gets.
    pub fn next(&self) -> u64
        ensures { result ≡ self.now.memories.next }
    {
        self.memories.next()
    }

    /// The cells that are taken in a rank's space.
    pub fn used(&self, space: u32) -> u32
        requires some { 0 < space }
        requires ranks { space ≤ self.now.memories.ranks }
        ensures used { result ≡ used_at self.now space }
        ensures within { result ≤ self.now.memories.capacity }
    {
        self.memories.used(space)
    }

    /// The cell of a block at an index of its store.
    pub fn peek(&self, block: Block, index: u32) -> Cell
        requires there { IsSome (block_at self.now block.id) }
        requires inside { IfSome (block_at self.now block.id) (Reaches index (index + 1)) }
        ensures { IfSome (block_at self.now block.id) (λ held. result ≡ cell_of held index) }
    {
        self.memories.cell(block.id, index)
    }

    /// All cells of a block.
    pub fn cells(&self, block: Block) -> &[Cell]
        requires there { IsSome (block_at self.now block.id) }
        ensures { IfSome (block_at self.now block.id) (λ held. result.now ≡ held.cells) }
    {
        self.memories.cells(block.id)
    }

    /// Makes room for so many steps; room that is there already counts.
    pub fn reserve(&mut self, alloc: Global, n: u32) -> Result<(), Memory>
        ensures stays { Stays self.old self.new self.old.named }
        ensures ok { OnOk result (n ≤ self.new.journal.spare) }
    {
        self.journal.reserve(alloc, n)
    }

    /// Notes a step that changes no cell.
    pub fn note(&mut self, alloc: Global, step: Step) -> Result<(), Memory>
        ensures ok { OnOk result (OnlyNotes self.old self.new step) }
        ensures succeeds { 0 < self.old.journal.spare → IsOk result }
        ensures err { OnErr result (Stays self.old self.new self.old.named) }
    {
        let far = self.memories.is_far(&step);
        self.journal.note(alloc, step, far)
    }

    /// Gives the step as which the next `copy`, `poke` or `kernel_out` is noted.
    pub fn named(&mut self, step: Step)
        ensures { self.new ≡ record self.old { named = Some step } }
    {
        self.named = Some(step);
    }

    /// Gives the journal back.
    pub fn finish(self) -> J
        ensures { J.means result ≡ self.journal }
    {
        let Spaces {
            memories: _,
            named: _,
            journal,
        } = self;
        journal
    }

    /// A new block, with cells 0, that holds a range of a store in a space.
    pub fn alloc(
        &mut self,
        alloc: Global,
        store: u64,
        space: u32,
        range: Range,
    ) -> Result<Block, SpaceFault>
        requires ranks { space ≤ self.old.memories.ranks }
        ensures made { IfOk result (λ block. Allocates self.old self.new block.id
            (fresh_block store space range.lo range.hi)
            (Step.Alloc block.id store space range.lo range.hi)) }
        ensures room { IfOk result (λ block. (len : ℕ) → range.lo + len ≡ range.hi →
            ¬ LacksRoom self.old.memories space len) }
        ensures fault { IfErr result (λ fault. IsSpaceFault self.old space range.lo range.hi fault) }
        ensures err { OnErr result (Stays self.old self.new self.old.named) }
    {
        self.memories.room(space, range.len())?;
        self.journal.reserve(alloc, 1)?;
        let id = self.memories.alloc(alloc, store, space, range)?;
        let step = Step::Alloc {
            copy: id,
            store,
            space,
            lo: range.lo,
            hi: range.hi,
        };
        self.journal.note(alloc, step, false)?;
        Ok(Block { id })
    }

    /// Takes a block away.
    pub fn free(&mut self, alloc: Global, block: Block) -> Result<(), Memory>
        requires there { IsSome (block_at self.old block.id) }
        ensures ok { OnOk result (Changes self.old self.new block.id None self.old.named (Step.Free block.id)) }
        ensures succeeds { 0 < self.old.journal.spare → IsOk result }
        ensures err { OnErr result (Stays self.old self.new self.old.named) }
    {
        self.journal
            .note(alloc, Step::Free { copy: block.id }, false)?;
        self.memories.free(block.id);
        Ok(())
    }

    /// Notes the next change by its name, or as `step`.
    fn note_named(&mut self, alloc: Global, step: Step) -> Result<(), Memory>
        ensures ok { OnOk result (Notes self.old.journal self.new.journal (name_or self.old.named step)
            (is_far self.old.memories (name_or self.old.named step))) }
        ensures memories { self.new.memories ≡ self.old.memories }
        ensures named { self.new.named ≡ None }
        ensures succeeds { 0 < self.old.journal.spare → IsOk result }
        ensures err { OnErr result (Stays self.old self.new None) }
    {
        let step = match self.named.take() {
            Some(name) => name,
            None => step,
        };
        self.note(alloc, step)
    }

    /// Puts cells of a block in the place of those of another one.
    pub fn copy(
        &mut self,
        alloc: Global,
        from: Block,
        to: Block,
        range: Range,
    ) -> Result<(), Memory>
        requires source { IsSome (block_at self.old from.id) }
        requires target { IsSome (block_at self.old to.id) }
        requires readable { IfSome (block_at self.old from.id) (Reaches range.lo range.hi) }
        requires writable { IfSome (block_at self.old to.id) (Reaches range.lo range.hi) }
        ensures ok { OnOk result (Changes self.old self.new to.id
            (copied range.lo range.hi (block_at self.old from.id) (block_at self.old to.id))
            None (name_or self.old.named (Step.Copy from.id to.id range.lo range.hi))) }
        ensures succeeds { 0 < self.old.journal.spare → IsOk result }
        ensures err { OnErr result (Stays self.old self.new None) }
    {
        let step = Step::Copy {
            from: from.id,
            to: to.id,
            lo: range.lo,
            hi: range.hi,
        };
        self.note_named(alloc, step)?;
        self.memories.copy(alloc, from.id, to.id, range);
        Ok(())
    }

    /// Puts one cell into a block.
    pub fn poke(
        &mut self,
        alloc: Global,
        block: Block,
        index: u32,
        cell: Cell,
    ) -> Result<(), Memory>
        requires there { IsSome (block_at self.old block.id) }
        requires inside { IfSome (block_at self.old block.id) (Reaches index (index + 1)) }
        ensures ok { OnOk result (Changes self.old self.new block.id
            (option_map (written index (cell ∷ [])) (block_at self.old block.id))
            None (name_or self.old.named (Step.Poke block.id index cell))) }
        ensures succeeds { 0 < self.old.journal.spare → IsOk result }
        ensures err { OnErr result (Stays self.old self.new None) }
    {
        let step = Step::Poke {
            copy: block.id,
            index,
            cell,
        };
        self.note_named(alloc, step)?;
        self.memories.write(block.id, index, &[cell]);
        Ok(())
    }

    /// Puts cells into a block, from an index of its store on, under a name that was given before.
    pub fn kernel_out(
        &mut self,
        alloc: Global,
        block: Block,
        lo: u32,
        cells: &[Cell],
    ) -> Result<(), Memory>
        requires named { IsSome self.old.named }
        requires there { IsSome (block_at self.old block.id) }
        requires inside { IfSome (block_at self.old block.id) (Reaches lo (lo + length cells.now)) }
        ensures ok { IfSome self.old.named (λ step. OnOk result (Changes self.old self.new block.id
            (option_map (written lo cells.now) (block_at self.old block.id)) None step)) }
        ensures succeeds { 0 < self.old.journal.spare → IsOk result }
        ensures err { OnErr result (Stays self.old self.new None) }
    {
        self.note_named(alloc, Step::Flush)?;
        self.memories.write(block.id, lo, cells);
        Ok(())
    }
}
