ghost use Rattle.std.specs.Prelude.{◌≡◌, ◌++◌, ℕ, [], List, OnOk, IfOk};
ghost use Rattle.sk_scheme.specs.Pieces.{Leaves, Piece};
ghost use Rattle.sk_emitter.specs.Applications.{Applies};

use crate::applied::{Applied, Given};
use sk_isa::Instr;
use std::alloc::{AllocError, Global};

/// What names are compiled to where an expression stands.
pub trait Surrounding {
    /// What names are compiled to, in the words of the code scheme.
    ghost leaves: { Leaves Self };

    /// The number of a container by its name.
    ghost number: { Self → List ℕ → ℕ };

    /// Appends a name alone.
    fn scalar(&self, code: &mut Vec<Instr>, name: &[u8]) -> Result<Given, AllocError>
        ensures code { OnOk result (code.new.items ≡ code.old.items ++ (leaves.scalar self.now name.now).code) }
        ensures ty { IfOk result (λ given. given.ty ≡ (leaves.scalar self.now name.now).ty) }
        ensures depth { IfOk result (λ given. given.depth ≡ (leaves.scalar self.now name.now).depth) };

    /// Appends `name.field`.
    fn field(
        &self,
        alloc: Global,
        code: &mut Vec<Instr>,
        name: &[u8],
        field: &[u8],
    ) -> Result<Given, AllocError>
        ensures code { OnOk result (code.new.items ≡ code.old.items ++ (leaves.field self.now name.now field.now).code) }
        ensures ty { IfOk result (λ given. given.ty ≡ (leaves.field self.now name.now field.now).ty) }
        ensures depth { IfOk result (λ given. given.depth ≡ (leaves.field self.now name.now field.now).depth) };

    /// Appends `name.method()`.
    fn method(
        &self,
        alloc: Global,
        code: &mut Vec<Instr>,
        name: &[u8],
        method: &[u8],
    ) -> Result<Given, AllocError>
        ensures code { OnOk result (code.new.items ≡ code.old.items ++ (leaves.method self.now name.now method.now).code) }
        ensures ty { IfOk result (λ given. given.ty ≡ (leaves.method self.now name.now method.now).ty) }
        ensures depth { IfOk result (λ given. given.depth ≡ (leaves.method self.now name.now method.now).depth) };

    /// What an application of a name is.
    fn applied(&self, alloc: Global, name: &[u8]) -> Result<Applied, AllocError>
        ensures { IfOk result (λ applied. (parts : List (Piece Self)) → Applies leaves number name.now parts self.now applied) };

    /// The number of a container by its name, and 0 where there is none.
    fn container(&self, name: &[u8]) -> u32
        ensures { result ≡ number self.now name.now };

    ghost nameless: { (name : List ℕ) (parts : List (Piece Self)) → (leaves.applied name parts).name ≡ [] };
}
