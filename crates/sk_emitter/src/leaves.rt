ghost use Rattle.std.specs.Prelude.{◌≡◌, ◌++◌, [], Option, Some, OnOk, IfOk};
ghost use Rattle.std.specs.Option.{option_map};
ghost use Rattle.sk_scheme.specs.Scheme as scheme;
ghost use Rattle.sk_emitter.specs.Names.{slot_of, callee_of, place_application, application_of};

use crate::applied::{Applied, Given, Use};
use crate::names::{Callee, InScope, Place};
use crate::output::put;
use crate::surrounding::Surrounding;
use crate::types::{kind_type, kinds};
use sk_base::Ty;
use sk_isa::Instr;
use sk_names::Name;
use sk_tree::ParamKind;
use sqlite_items::Items;
use std::alloc::{AllocError, Global};

/// Loads a scalar, which is one value more on the stack; a parameter of another kind is no value.
fn load(code: &mut Vec<Instr>, place: Place) -> Result<usize, AllocError>
    ensures code { OnOk result (code.new.items ≡ code.old.items ++ scheme.name_code (Some (slot_of place))) }
    ensures depth { IfOk result (λ depth. depth ≡ scheme.name_depth (Some (slot_of place))) }
{
    match place.kind {
        ParamKind::Scalar(_) => {
            put(code, Instr::Load(place.number))?;
            Ok(1)
        }
        ParamKind::Index(_) => Ok(0),
        ParamKind::Proxy(_, _) => Ok(0),
        ParamKind::Region(_, _) => Ok(0),
    }
}

/// The value of a scalar. A name of anything else is no value, and leaves no code.
fn name(code: &mut Vec<Instr>, place: Option<Place>) -> Result<Given, AllocError>
    ensures code { OnOk result (code.new.items ≡ code.old.items ++ scheme.name_code (option_map slot_of place)) }
    ensures given { IfOk result (λ given. given ≡ record { ty = scheme.name_type (option_map slot_of place); depth = scheme.name_depth (option_map slot_of place) }) }
{
    match place {
        Some(place) => {
            let depth = load(code, place)?;
            Ok(Given {
                ty: kind_type(place.kind),
                depth,
            })
        }
        None => Ok(Given {
            ty: Ty::Int,
            depth: 0,
        }),
    }
}

/// A field of a parameter.
fn field(
    alloc: Global,
    code: &mut Vec<Instr>,
    place: Option<Place>,
    field: &[u8],
) -> Result<(), AllocError>
    ensures { OnOk result (code.new.items ≡ code.old.items ++ scheme.field_code (option_map slot_of place) field.now) }
{
    match place {
        Some(place) => {
            let field = Name::from_slice(alloc, field)?;
            put(code, Instr::Field(place.number, field))
        }
        None => Ok(()),
    }
}

/// An element of a parameter, by its places. Of parameters without elements the places are left.
fn element(alloc: Global, place: Place) -> Applied
    ensures { result ≡ place_application (slot_of place) }
{
    let used = match place.kind {
        ParamKind::Scalar(_) => Use::Left,
        ParamKind::Index(_) => Use::Left,
        ParamKind::Proxy(_, _) => Use::Item(place.number),
        ParamKind::Region(_, _) => Use::Region(place.number),
    };
    Applied {
        ty: kind_type(place.kind),
        passed: 0,
        kinds: Items::new(alloc),
        used,
    }
}

/// An element of a parameter, or a call of a function. Where there is neither, the parts are left.
fn application(
    alloc: Global,
    place: Option<Place>,
    callee: Option<Callee<'_>>,
) -> Result<Applied, AllocError>
    ensures { IfOk result (λ applied. applied ≡ application_of (option_map slot_of place) (option_map callee_of callee.entry)) }
{
    match place {
        Some(place) => Ok(element(alloc, place)),
        None => match callee {
            Some(callee) => Ok(Applied {
                ty: callee.function.ret,
                passed: 0,
                kinds: Items::from_vec(kinds(alloc, callee.function.params.as_slice())?),
                used: Use::Call(callee.number),
            }),
            None => Ok(Applied {
                ty: Ty::Int,
                passed: 0,
                kinds: Items::new(alloc),
                used: Use::Left,
            }),
        },
    }
}

impl<'a> Surrounding for InScope<'a> {
    ghost use Rattle.std.specs.Prelude.{refl};
    ghost use Rattle.sk_scheme.specs.Scheme.{function_leaves};

    ghost leaves = { function_leaves };

    ghost number = { λ around name. 0 };

    fn scalar(&self, code: &mut Vec<Instr>, name: &[u8]) -> Result<Given, AllocError> {
        crate::leaves::name(code, self.place(name))
    }

    fn field(
        &self,
        alloc: Global,
        code: &mut Vec<Instr>,
        name: &[u8],
        field: &[u8],
    ) -> Result<Given, AllocError> {
        crate::leaves::field(alloc, code, self.place(name), field)?;
        Ok(Given {
            ty: Ty::Int,
            depth: 1,
        })
    }

    /// A function has no methods.
    fn method(
        &self,
        _alloc: Global,
        _code: &mut Vec<Instr>,
        _name: &[u8],
        _method: &[u8],
    ) -> Result<Given, AllocError> {
        Ok(Given {
            ty: Ty::Int,
            depth: 1,
        })
    }

    fn applied(&self, alloc: Global, name: &[u8]) -> Result<Applied, AllocError> {
        let place = self.place(name);
        let applied = application(alloc, place, self.callee(name))?;
        Ok(applied)
    }

    /// A function's containers have no numbers.
    fn container(&self, _name: &[u8]) -> u32 {
        0
    }

    ghost nameless = { λ name parts. refl };
}
