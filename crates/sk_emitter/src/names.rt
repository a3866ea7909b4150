ghost use Rattle.std.specs.Prelude.{◌≡◌, [], ◌∷◌, ◌-◌, length, drop, OnOk};
ghost use Rattle.std.specs.Option.{option_map};
ghost use Rattle.sk_names.specs.Bindings.{bound_to};
ghost use Rattle.sk_scheme.specs.Scheme.{Around, known_of};
ghost use Rattle.sk_emitter.specs.Names.{slot_of, known_in, slots_in, callee_of};

use sk_scopes::Scopes;
use sk_tree::{Function, ParamKind};
use std::alloc::{AllocError, Global};
use std::marker::Model;

/// Where a name's value is kept, and of what kind it is.
#[derive(Clone, Copy)]
pub struct Place {
    pub number: u32,
    pub kind: ParamKind,
}

/// A function that may be called, with its number.
#[derive(Clone, Copy)]
pub struct Callee<'a> {
    pub number: u32,
    pub function: &'a Function,
}

/// The functions and the names in scope where code stands, which contracts see as their lists, the latest first.
#[derive(Drop)]
pub struct InScope<'a> {
    functions: Scopes<'a, Callee<'a>>,
    scope: Scopes<'a, Place>,
}

impl<'a> Model for InScope<'a> {
    ghost Value = { Around };

    ghost view = { λ s. record { functions = known_in s.functions; scope = slots_in s.scope } };
}

impl<'a> InScope<'a> {
    /// No function and no name. Memory is taken from the first declaration on.
    pub fn new(alloc: Global) -> InScope<'a>
        ensures { result ≡ record { functions = []; scope = [] } }
    {
        InScope {
            functions: Scopes::new(alloc),
            scope: Scopes::new(alloc),
        }
    }

    /// Where a name's value is kept, if it is in scope.
    pub fn place(&self, name: &[u8]) -> Option<Place>
        ensures { option_map slot_of result ≡ bound_to name.now self.now.scope }
    {
        self.scope.find(name)
    }

    /// The function of a name, if it may be called.
    pub fn callee(&self, name: &[u8]) -> Option<Callee<'a>>
        ensures { option_map callee_of result ≡ bound_to name.now self.now.functions }
    {
        self.functions.find(name)
    }

    /// How many names are in scope.
    pub fn depth(&self) -> usize
        ensures { result ≡ length self.now.scope }
    {
        self.scope.depth()
    }

    /// A name whose value is kept there is in scope from now on.
    pub fn declare(&mut self, name: &'a [u8], place: Place) -> Result<(), AllocError>
        ensures { OnOk result (self.new ≡ record { functions = self.old.functions; scope = (name.now, slot_of place) ∷ self.old.scope }) }
    {
        self.scope.declare(name, place)
    }

    /// A function may be called from now on.
    pub fn define(&mut self, number: u32, function: &'a Function) -> Result<(), AllocError>
        ensures { OnOk result (self.new ≡ record { functions = (function.now.name, known_of number function.now) ∷ self.old.functions; scope = self.old.scope }) }
    {
        self.functions
            .declare(function.name.as_bytes(), Callee { number, function })
    }

    /// Names go out of scope until no more than these many are left.
    pub fn leave(&mut self, depth: usize)
        ensures { self.new ≡ record { functions = self.old.functions; scope = drop (length self.old.scope - depth) self.old.scope } }
    {
        self.scope.leave(depth);
    }
}
