ghost use Rattle.std.specs.Prelude.{◌≡◌, ℕ, ◌<◌, ◌≤◌, ◌+◌, ◌-◌, ◌^◌, length, Some, IfSome, IsSome, slice_get};
ghost use Rattle.sk_tree.specs.Parameters.{is_index_field};
ghost use Rattle.sk_vm.specs.Lent.{LendsRun, begun_at, begun_in, lent_at};

use sk_base::Cell;
use sk_columns::Lanes;
use sk_kernel::Data;
use sk_names::Name;

/// The slots of a function where it begins, at places one behind another. The scalars are as data lends them: an element has a
/// column, and a uniform argument one number. Over pairs the first element has one number too. Every other slot holds 0, and
/// the coordinate of an index is the place.
#[derive(Drop)]
pub struct Lent<'a, D> {
    pub source: &'a D,
    /// How many of the parameters are an index of one dimension, which stands first.
    pub indices: u32,
    /// How many of the scalars are elements, and whether the second one is read at the pair.
    pub elements: u32,
    pub pairs: bool,
    /// The first place and the first pair.
    pub place: u32,
    pub pair: u32,
    /// How many places, and how many scalars.
    pub places: u32,
    pub scalars: u32,
    /// How many slots behind an index, scalars first.
    pub slots: usize,
}

impl<'a, D: Data> Lent<'a, D> {
    /// The number that stands in a slot at all places, where it is known to be one. Slots are counted behind an index.
    fn scalar(&self, slot: u32) -> Option<Cell>
        requires lends { LendsRun (D.means self.now.source.now) self.now.elements self.now.pairs self.now.place self.now.pair self.now.scalars self.now.places }
        ensures { IfSome result (λ number. (behind : ℕ) → begun_in self.now.scalars self.now.slots (lent_at (D.means self.now.source.now) self.now.elements self.now.pairs self.now.place self.now.pair self.now.scalars behind) slot ≡ Some number) }
    {
        if slot >= self.scalars {
            if (slot as usize) < self.slots {
                Some(0)
            } else {
                None
            }
        } else if self.places == 0 {
            None
        } else if slot >= self.elements {
            Some(self.source.uniform(slot - self.elements))
        } else if self.pairs && slot != 1 {
            Some(self.source.cell(slot, self.place))
        } else {
            None
        }
    }

    /// The numbers in a slot at the first places. Slots are counted behind an index.
    fn element(&self, slot: u32) -> &[Cell]
        requires lends { LendsRun (D.means self.now.source.now) self.now.elements self.now.pairs self.now.place self.now.pair self.now.scalars self.now.places }
        ensures { (behind : ℕ) → behind < length result.now → begun_in self.now.scalars self.now.slots (lent_at (D.means self.now.source.now) self.now.elements self.now.pairs self.now.place self.now.pair self.now.scalars behind) slot ≡ slice_get result.now behind }
    {
        if slot >= self.scalars || slot >= self.elements || self.places == 0 {
            return &[];
        }
        if !self.pairs {
            self.source.column(slot, self.place, self.places)
        } else if slot == 1 {
            self.source.column(slot, self.pair, self.places)
        } else {
            &[]
        }
    }
}

impl<'a, D: Data> Lanes for Lent<'a, D> {
    ghost known = { λ lent behind. begun_at lent.indices lent.scalars lent.slots (lent.place + behind) (lent_at (D.means lent.source.now) lent.elements lent.pairs lent.place lent.pair lent.scalars behind) };

    ghost lends = { λ lent. LendsRun (D.means lent.source.now) lent.elements lent.pairs lent.place lent.pair lent.scalars lent.places };

    fn number(&self, slot: u32) -> Option<Cell> {
        if slot < self.indices {
            Some(0)
        } else {
            self.scalar(slot - self.indices)
        }
    }

    fn column(&self, slot: u32) -> &[Cell] {
        if slot < self.indices {
            &[]
        } else {
            self.element(slot - self.indices)
        }
    }

    fn first(&self, slot: u32, name: &Name) -> Option<u32> {
        if slot < self.indices && is_coordinate(name) {
            Some(self.place)
        } else {
            None
        }
    }
}

/// Whether a name is that of the coordinate of an index of one dimension.
fn is_coordinate(name: &Name) -> bool
    ensures { result ≡ is_index_field 1 name.now }
{
    name.as_bytes() == "i".as_bytes()
}
