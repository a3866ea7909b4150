ghost use Rattle.std.specs.Prelude.{◌≡◌, ◌++◌, ◌∷◌, ◌-◌, [], length, take, drop, flat_map, OnOk};
ghost use Rattle.std.specs.Option.{option_map};
ghost use Rattle.sk_emitter.specs.Names.{callee_of};
ghost use Rattle.sk_main_emitter.specs.Names.{named_of, named_in, in_order, drop_code};
ghost use Rattle.sk_main_scheme.specs.MainScheme as scheme;
ghost use Rattle.sk_main_scheme.specs.MainScheme.{Around};
ghost use Rattle.sk_names.specs.Bindings.{bound_to};

use crate::named::Named;
use sk_emitter::{Callee, InScope, put};
use sk_isa::Instr;
use sk_scopes::Scopes;
use std::alloc::{AllocError, Global};
use std::marker::Model;

/// Ends a container; of other names nothing ends.
fn drop_named(code: &mut Vec<Instr>, named: &Named<'_>) -> Result<(), AllocError>
    ensures { OnOk result (code.new.items ≡ code.old.items ++ drop_code named.now) }
{
    match *named {
        Named::Number(_, _) => Ok(()),
        Named::Whole(container, _) => put(code, Instr::Drop(container)),
        Named::Called(_) => Ok(()),
    }
}

/// Ends the containers among names in text order.
fn drop_all(code: &mut Vec<Instr>, names: &[Named<'_>]) -> Result<(), AllocError>
    ensures { OnOk result (code.new.items ≡ code.old.items ++ flat_map drop_code names.now) }
{
    for named in names {
        drop_named(code, named)?;
    }
    Ok(())
}

/// What stands behind these many of a list.
fn behind<'n, 'a>(names: &'n [Named<'a>], count: usize) -> &'n [Named<'a>]
    ensures { result.now ≡ drop count names.now }
{
    if count <= names.len() {
        &names[count..]
    } else {
        &[]
    }
}

/// The functions and the names in scope where code of main stands, which contracts see as their lists, the latest first.
/// What the names stand for is kept a second time in text order, for the containers that end with a block.
#[derive(Drop)]
pub(crate) struct InMain<'a> {
    functions: InScope<'a>,
    scope: Scopes<'a, Named<'a>>,
    declared: Vec<Named<'a>>,
}

impl<'a> Model for InMain<'a> {
    ghost Value = { Around };

    ghost view = { λ s. record { functions = s.functions.functions; scope = named_in s.scope } };

    ghost invariant = { λ s. s.declared.items ≡ in_order s.scope };
}

impl<'a> InMain<'a> {
    /// These functions and no name. Memory is taken from the first declaration on.
    pub(crate) fn new(alloc: Global, functions: InScope<'a>) -> InMain<'a>
        ensures { result ≡ record { functions = functions.entry.functions; scope = [] } }
    {
        InMain {
            functions,
            scope: Scopes::new(alloc),
            declared: Vec::new(alloc),
        }
    }

    /// The functions that may be called.
    pub(crate) fn functions(&self) -> &InScope<'a>
        ensures { result.now.functions ≡ self.now.functions }
    {
        &self.functions
    }

    /// What a name stands for, if it is in scope.
    pub(crate) fn named(&self, name: &[u8]) -> Option<Named<'a>>
        ensures { option_map named_of result ≡ bound_to name.now self.now.scope }
    {
        self.scope.find(name)
    }

    /// The function of a name, if it may be called.
    pub(crate) fn callee(&self, name: &[u8]) -> Option<Callee<'a>>
        ensures { option_map callee_of result ≡ bound_to name.now self.now.functions }
    {
        self.functions.callee(name)
    }

    /// How many names are in scope.
    pub(crate) fn depth(&self) -> usize
        ensures { result ≡ length self.now.scope }
    {
        self.scope.depth()
    }

    /// A name is in scope from now on.
    pub(crate) fn declare(&mut self, name: &'a [u8], named: Named<'a>) -> Result<(), AllocError>
        ensures { OnOk result (self.new ≡ record { functions = self.old.functions; scope = (name.now, named_of named.entry) ∷ self.old.scope }) }
    {
        self.declared.push(named)?;
        match self.scope.declare(name, named) {
            Ok(()) => Ok(()),
            Err(_) => {
                self.declared.pop();
                Err(AllocError)
            }
        }
    }

    /// Ends the containers that were declared behind these many names, in text order.
    pub(crate) fn drop_behind(&self, code: &mut Vec<Instr>, depth: usize) -> Result<(), AllocError>
        ensures { OnOk result (code.new.items ≡ code.old.items ++ scheme.dropped (take (length self.now.scope - depth) self.now.scope)) }
    {
        drop_all(code, behind(self.declared.as_slice(), depth))?;
        Ok(())
    }

    /// Names go out of scope until no more than these many are left.
    pub(crate) fn leave(&mut self, depth: usize)
        ensures { self.new ≡ record { functions = self.old.functions; scope = drop (length self.old.scope - depth) self.old.scope } }
    {
        self.scope.leave(depth);
        self.declared.truncate(depth);
    }
}
