ghost use Rattle.std.specs.Prelude.{◌≡◌, ◌++◌, Option, OnOk, IfOk};
ghost use Rattle.std.specs.Option.{option_map};
ghost use Rattle.sk_emitter.specs.Names.{callee_of};
ghost use Rattle.sk_main_emitter.specs.Names.{named_of, application_of};
ghost use Rattle.sk_main_emitter.specs.Statements.{container_of};
ghost use Rattle.sk_main_scheme.specs.MainScheme as scheme;

use crate::instances::{operands, uniforms};
use crate::named::Named;
use crate::names::InMain;
use sk_base::Ty;
use sk_emitter::{Applied, Callee, Given, Surrounding, Use, kinds, put};
use sk_isa::Instr;
use sk_names::Name;
use sqlite_items::Items;
use std::alloc::{AllocError, Global};

/// What is no value leaves no code.
const NOTHING: Given = Given {
    ty: Ty::Int,
    depth: 0,
};

/// A name alone: the value of a scalar.
fn scalar(code: &mut Vec<Instr>, named: Option<Named<'_>>) -> Result<Given, AllocError>
    ensures code { OnOk result (code.new.items ≡ code.old.items ++ (scheme.name_leaf (option_map named_of named.entry)).code) }
    ensures ty { IfOk result (λ given. given.ty ≡ (scheme.name_leaf (option_map named_of named.entry)).ty) }
    ensures depth { IfOk result (λ given. given.depth ≡ (scheme.name_leaf (option_map named_of named.entry)).depth) }
{
    match named {
        Some(Named::Number(slot, ty)) => {
            put(code, Instr::Load(slot))?;
            Ok(Given { ty, depth: 1 })
        }
        Some(Named::Whole(_, _)) => Ok(NOTHING),
        Some(Named::Called(_)) => Ok(NOTHING),
        None => Ok(NOTHING),
    }
}

/// A method of a container.
fn method(
    alloc: Global,
    code: &mut Vec<Instr>,
    named: Option<Named<'_>>,
    method: &[u8],
) -> Result<Given, AllocError>
    ensures code { OnOk result (code.new.items ≡ code.old.items ++ (scheme.method_leaf (option_map named_of named.entry) method.now).code) }
    ensures ty { IfOk result (λ given. given.ty ≡ (scheme.method_leaf (option_map named_of named.entry) method.now).ty) }
    ensures depth { IfOk result (λ given. given.depth ≡ (scheme.method_leaf (option_map named_of named.entry) method.now).depth) }
{
    match named {
        Some(Named::Whole(container, _)) => {
            let method = Name::from_slice(alloc, method)?;
            put(code, Instr::Size(container, method))?;
            Ok(Given {
                ty: Ty::Int,
                depth: 1,
            })
        }
        Some(Named::Number(_, _)) => Ok(NOTHING),
        Some(Named::Called(_)) => Ok(NOTHING),
        None => Ok(NOTHING),
    }
}

/// The number of a container, and 0 of anything else.
fn container(named: Option<Named<'_>>) -> u32
    ensures { result ≡ container_of (option_map named_of named.entry) }
{
    match named {
        Some(Named::Whole(container, _)) => container,
        Some(Named::Number(_, _)) => 0,
        Some(Named::Called(_)) => 0,
        None => 0,
    }
}

/// A call of a function; nothing where there is none.
fn call(alloc: Global, callee: Option<Callee<'_>>) -> Result<Applied, AllocError>
    ensures { IfOk result (λ applied. applied ≡ application_of None (option_map callee_of callee.entry)) }
{
    match callee {
        Some(callee) => Ok(Applied {
            ty: callee.function.ret,
            passed: 0,
            kinds: Items::from_vec(kinds(alloc, callee.function.params.as_slice())?),
            used: Use::Call(callee.number),
        }),
        None => Ok(Applied {
            ty: Ty::Int,
            passed: 0,
            kinds: Items::new(alloc),
            used: Use::Nothing,
        }),
    }
}

/// An element of a container, a call of an instance, or a call of a function.
fn application(
    alloc: Global,
    named: Option<Named<'_>>,
    callee: Option<Callee<'_>>,
) -> Result<Applied, AllocError>
    ensures { IfOk result (λ applied. applied ≡ application_of (option_map named_of named.entry) (option_map callee_of callee.entry)) }
{
    match named {
        Some(Named::Whole(container, ty)) => Ok(Applied {
            ty,
            passed: 0,
            kinds: Items::new(alloc),
            used: Use::Item(container),
        }),
        Some(Named::Called(made)) => Ok(Applied {
            ty: made.ret,
            passed: operands(&made)?,
            kinds: uniforms(alloc, &made)?,
            used: Use::Get(made.number),
        }),
        Some(Named::Number(_, ty)) => Ok(Applied {
            ty,
            passed: 0,
            kinds: Items::new(alloc),
            used: Use::Nothing,
        }),
        None => call(alloc, callee),
    }
}

impl<'a> Surrounding for InMain<'a> {
    ghost use Rattle.std.specs.Prelude.{refl};
    ghost use Rattle.sk_main_scheme.specs.MainScheme.{main_leaves, container_named};

    ghost leaves = { main_leaves };

    ghost number = { container_named };

    fn scalar(&self, code: &mut Vec<Instr>, name: &[u8]) -> Result<Given, AllocError> {
        crate::leaves::scalar(code, self.named(name))
    }

    /// Main has no fields.
    fn field(
        &self,
        _alloc: Global,
        _code: &mut Vec<Instr>,
        _name: &[u8],
        _field: &[u8],
    ) -> Result<Given, AllocError> {
        Ok(NOTHING)
    }

    fn method(
        &self,
        alloc: Global,
        code: &mut Vec<Instr>,
        name: &[u8],
        method: &[u8],
    ) -> Result<Given, AllocError> {
        crate::leaves::method(alloc, code, self.named(name), method)
    }

    fn applied(&self, alloc: Global, name: &[u8]) -> Result<Applied, AllocError> {
        let named = self.named(name);
        let applied = application(alloc, named, self.callee(name))?;
        Ok(applied)
    }

    fn container(&self, name: &[u8]) -> u32 {
        crate::leaves::container(self.named(name))
    }

    ghost nameless = { λ name parts. refl };
}
