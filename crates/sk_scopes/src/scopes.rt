ghost use Rattle.std.specs.Prelude.{◌≡◌, ℕ, List, [], ◌∷◌, ◌-◌, length, drop, reverse, OnOk, OnErr, Option, Some, IsSome};
ghost use Rattle.sk_names.specs.Bindings.{bound_to};
ghost use Rattle.sk_scopes.specs.Scopes.{IsTidy, Rebinds, bindings_of, found_in};

use indexmap::IndexMap;
use std::alloc::{AllocError, Global};
use std::marker::Model;

/// A declaration: its name, what the name stands for, and what it stood for before.
#[derive(Clone, Copy)]
struct Binding<'a, T: Copy> {
    name: &'a [u8],
    known: T,
    shadowed: Option<T>,
}

/// A name that is bound is bound to something else, which takes no memory.
fn rebind<'a, T: Copy>(latest: &mut IndexMap<&'a [u8], T>, name: &'a [u8], known: T)
    ensures { IsSome (found_in latest.old name.now) → Rebinds (found_in latest.old) (found_in latest.new) name.now (Some known) }
{
    match latest.insert(name, known) {
        Ok(_) => {}
        Err(_) => {}
    }
}

/// The names in scope, each with what it stands for, which contracts see as their list, the latest first. A name that is
/// declared again stands for what was declared last, until that declaration is taken back. A walk over a block keeps the
/// depth where the block begins, and leaves for it where the block ends.
#[derive(Drop)]
pub struct Scopes<'a, T: Copy> {
    latest: IndexMap<&'a [u8], T>,
    declared: Vec<Binding<'a, T>>,
}

impl<'a, T: Copy> Model for Scopes<'a, T> {
    ghost Value = { List (List ℕ × T) };

    ghost view = { λ s. bindings_of (reverse s.declared.items) };

    ghost invariant = { λ s. IsTidy (found_in s.latest) (reverse s.declared.items) };
}

impl<'a, T: Copy> Scopes<'a, T> {
    /// No names. Memory is taken from the first declaration on.
    pub fn new(alloc: Global) -> Scopes<'a, T>
        ensures { result ≡ [] }
    {
        Scopes {
            latest: IndexMap::new(alloc),
            declared: Vec::new(alloc),
        }
    }

    /// What a name stands for by its latest declaration, if it is in scope. A look-up takes constant time, however many
    /// names there are.
    pub fn find(&self, name: &[u8]) -> Option<T>
        ensures { result ≡ bound_to name.now self.now }
    {
        self.latest.get(name).copied()
    }

    /// How many declarations are in scope, with those that are shadowed.
    pub fn depth(&self) -> usize
        ensures { result ≡ length self.now }
    {
        self.declared.len()
    }

    /// A declaration, which is in scope from now on. It takes constant time, but where room for more is made. Want of
    /// memory leaves all as it was.
    pub fn declare(&mut self, name: &'a [u8], known: T) -> Result<(), AllocError>
        ensures declared { OnOk result (self.new ≡ (name.now, known) ∷ self.old) }
        ensures refused { OnErr result (self.new ≡ self.old) }
    {
        let shadowed = self.latest.get(name).copied();
        self.declared.push(Binding {
            name,
            known,
            shadowed,
        })?;
        match self.latest.insert(name, known) {
            Ok(_) => Ok(()),
            Err(_) => {
                self.declared.pop();
                Err(AllocError)
            }
        }
    }

    /// Takes the latest declaration back, if there is one.
    fn undo(&mut self)
        ensures { self.new ≡ drop 1 self.old }
    {
        if let Some(binding) = self.declared.pop() {
            match binding.shadowed {
                Some(known) => rebind(&mut self.latest, binding.name, known),
                None => {
                    self.latest.swap_remove(binding.name);
                }
            }
        }
    }

    /// Takes declarations back, the latest first, until no more than these many are left: what they shadowed is in scope
    /// again. It takes constant time for each one that is taken back, and no memory.
    pub fn leave(&mut self, depth: usize)
        ensures { self.new ≡ drop (length self.old - depth) self.old }
    {
        while self.depth() > depth {
            self.undo();
        }
    }
}
