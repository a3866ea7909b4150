ghost use Rattle.std.specs.Prelude.{◌≡◌, ℕ, ◌<◌, ◌+◌, Some, IfSome, length, pos, slice_get};
ghost use Rattle.sk_columns.specs.Known.{Known};

use sk_base::Cell;
use sk_names::Name;

/// The slots of a function at places one behind another: in each slot one number for all places, or a column of them, or an
/// argument with fields.
pub trait Lanes {
    /// What is known of the slots and of the arguments' fields at a place.
    ghost known: { Self → (place : ℕ) → Known };

    /// When it may be asked.
    ghost lends: { Self → Type 0 };

    /// The number that stands in a slot at all places, where it is known to be one.
    fn number(&self, slot: u32) -> Option<Cell>
        requires lends { lends self.now }
        ensures { IfSome result (λ number. (place : ℕ) → (known self.now place).slots slot ≡ Some number) };

    /// The numbers in a slot at the first places: at as many as lie in one piece.
    fn column(&self, slot: u32) -> &[Cell]
        requires lends { lends self.now }
        ensures { (place : ℕ) → place < length result.now → (known self.now place).slots slot ≡ slice_get result.now place };

    /// The number that a field of the argument in a slot has at the first place, where it is known to have the next number at
    /// each next place.
    fn first(&self, slot: u32, name: &Name) -> Option<u32>
        requires lends { lends self.now }
        ensures { IfSome result (λ number. (place : ℕ) → (known self.now place).fields slot name.now ≡ Some (pos (number + place))) };
}
