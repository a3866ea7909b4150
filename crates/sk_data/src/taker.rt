//! What takes the bytes of a field.
ghost use Rattle.std.specs.Prelude.{◌≡◌, ◌++◌, ◌∷◌, [], ℕ, List, ⊤};

/// What takes the bytes of a field, one after another.
pub trait Taker {
    /// How many bytes it has room for.
    ghost room: { Self → ℕ };

    /// That it took these bytes.
    ghost took: { Self → List ℕ → Type 0 };

    /// Takes one byte more.
    fn take(&mut self, byte: u8)
        ensures room { room self.new ≡ room self.old }
        ensures took { (bytes : List ℕ) → took self.old bytes → took self.new (bytes ++ byte ∷ []) };
}

/// What passes a field over.
#[derive(Clone, Copy, Debug)]
pub struct Passed;

impl Taker for Passed {
    ghost room = { λ _. 0 };

    ghost took = { λ _ _. ⊤ };

    fn take(&mut self, _byte: u8) {}
}
