ghost use Rattle.std.specs.Prelude.{◌≡◌, ◌++◌, ◌∷◌, [], length, map, Option, OnOk, IfOk};
ghost use Rattle.std.specs.Option.{option_map};
ghost use Rattle.sk_main_emitter.specs.Names.{named_of, made_in};
ghost use Rattle.sk_main_emitter.specs.Statements as parts;
ghost use Rattle.sk_main_scheme.specs.MainScheme as scheme;
ghost use Rattle.sk_main_scheme.specs.MainScheme.{main_piece};
ghost use Rattle.sk_scheme.specs.Pieces as pieces;

use crate::instances::{operands, uniforms};
use crate::named::{Made, Named};
use crate::names::InMain;
use sk_base::Ty;
use sk_emitter::{above, address, arguments, containers, parted, put, sum, wanted};
use sk_isa::Instr;
use sk_tree::Expr;
use std::alloc::{AllocError, Global};
use std::cmp::max;

/// Appends expressions from left to right, each as it is: their depth.
pub(crate) fn places(
    alloc: Global,
    code: &mut Vec<Instr>,
    names: &InMain<'_>,
    places: &[Expr],
) -> Result<usize, AllocError>
    ensures code { OnOk result (code.new.items ≡ code.old.items ++ pieces.places_code (map main_piece places.now) names.now (length code.old.items)) }
    ensures depth { IfOk result (λ depth. depth ≡ pieces.parts_depth (map main_piece places.now) names.now) }
{
    let depth = arguments(alloc, code, names, &[], places)?;
    Ok(depth)
}

/// The depth of expressions that are not compiled.
pub(crate) fn ignored(
    alloc: Global,
    code: &mut Vec<Instr>,
    names: &InMain<'_>,
    parts: &[Expr],
) -> Result<usize, AllocError>
    ensures code { OnOk result (code.new.items ≡ code.old.items) }
    ensures depth { IfOk result (λ depth. depth ≡ pieces.parts_depth (map main_piece parts.now) names.now) }
{
    let start = code.len();
    let depth = arguments(alloc, code, names, &[], parts)?;
    code.truncate(start);
    Ok(depth)
}

/// The type of a value that a name is given.
fn named_type(named: Option<Named<'_>>) -> Ty
    ensures { result ≡ scheme.named_type (option_map named_of named.entry) }
{
    match named {
        Some(Named::Number(_, ty)) => ty,
        Some(Named::Whole(_, ty)) => ty,
        Some(Named::Called(made)) => made.ret,
        None => Ty::Int,
    }
}

/// Stores a value in a scalar; in anything else nothing is stored.
fn store(code: &mut Vec<Instr>, named: Option<Named<'_>>) -> Result<(), AllocError>
    ensures { OnOk result (code.new.items ≡ code.old.items ++ scheme.store_code (option_map named_of named.entry)) }
{
    match named {
        Some(Named::Number(slot, _)) => put(code, Instr::Store(slot)),
        Some(Named::Whole(_, _)) => Ok(()),
        Some(Named::Called(_)) => Ok(()),
        None => Ok(()),
    }
}

/// Appends a value for a name, and stores it there: its depth.
pub(crate) fn assigned(
    alloc: Global,
    code: &mut Vec<Instr>,
    names: &InMain<'_>,
    named: Option<Named<'_>>,
    expr: &Expr,
) -> Result<usize, AllocError>
    ensures code { OnOk result (code.new.items ≡ code.old.items
        ++ (pieces.wanted_code (scheme.named_type (option_map named_of named.entry)) (main_piece expr.now) names.now (length code.old.items)
        ++ scheme.store_code (option_map named_of named.entry))) }
    ensures depth { IfOk result (λ depth. depth ≡ (main_piece expr.now).depth names.now) }
{
    let depth = wanted(alloc, code, names, named_type(named), expr)?;
    store(code, named)?;
    Ok(depth)
}

/// Appends places, and the value of the element there: their depth.
pub(crate) fn poked(
    alloc: Global,
    code: &mut Vec<Instr>,
    names: &InMain<'_>,
    named: Option<Named<'_>>,
    places: &[Expr],
    value: &Expr,
) -> Result<usize, AllocError>
    ensures code { OnOk result (code.new.items ≡ code.old.items
        ++ pieces.then_code (pieces.places_code (map main_piece places.now) names.now (length code.old.items))
        (pieces.wanted_code (scheme.named_type (option_map named_of named.entry)) (main_piece value.now) names.now) (length code.old.items)) }
    ensures depth { IfOk result (λ depth. depth ≡ pieces.parts_depth (map main_piece (places.now ++ value.now ∷ [])) names.now) }
{
    let first = crate::values::places(alloc, code, names, places)?;
    let last = wanted(alloc, code, names, named_type(named), value)?;
    let above = sum(places.len(), max(last, 1))?;
    let depth = max(first, above);
    Ok(depth)
}

/// Appends the fill value of a container, which is 0 where none is written: its depth, and that of what stands behind it.
fn fill(
    alloc: Global,
    code: &mut Vec<Instr>,
    names: &InMain<'_>,
    ty: Ty,
    left: &[Expr],
) -> Result<usize, AllocError>
    ensures code { OnOk result (code.new.items ≡ code.old.items ++ parts.fill_code ty left.now names.now (length code.old.items)) }
    ensures depth { IfOk result (λ depth. depth ≡ pieces.parts_depth (map main_piece left.now) names.now) }
{
    match left {
        [] => {
            put(code, Instr::Push(0))?;
            Ok(0)
        }
        [value, more @ ..] => {
            let own = wanted(alloc, code, names, ty, value)?;
            let behind = ignored(alloc, code, names, more)?;
            let rest = above(behind)?;
            let depth = max(own, rest);
            Ok(depth)
        }
    }
}

/// Appends the sizes of a container and its fill value: their depth.
pub(crate) fn sized(
    alloc: Global,
    code: &mut Vec<Instr>,
    names: &InMain<'_>,
    ty: Ty,
    kind: u8,
    arguments: &[Expr],
) -> Result<usize, AllocError>
    ensures code { OnOk result (code.new.items ≡ code.old.items ++ scheme.make_code ty kind arguments.now names.now (length code.old.items)) }
    ensures depth { IfOk result (λ depth. depth ≡ scheme.make_depth kind arguments.now names.now) }
{
    let count = usize::from(kind);
    let (sizes, left) = parted(arguments, count);
    let first = places(alloc, code, names, sizes)?;
    let last = fill(alloc, code, names, ty, left)?;
    let whole = sum(sizes.len(), last)?;
    let least = above(count)?;
    let depth = max(first, whole);
    let deepest = max(least, depth);
    Ok(deepest)
}

/// Appends a call statement of an instance: its depth.
fn called(
    alloc: Global,
    code: &mut Vec<Instr>,
    names: &InMain<'_>,
    made: Made<'_>,
    arguments: &[Expr],
) -> Result<usize, AllocError>
    ensures code { OnOk result (code.new.items ≡ code.old.items ++ parts.do_made (made_in made.entry) (map main_piece arguments.now) names.now (length code.old.items)) }
    ensures depth { IfOk result (λ depth. depth ≡ parts.do_named_depth (Option.Some (scheme.Called (made_in made.entry))) (map main_piece arguments.now) names.now) }
{
    let operands = operands(&made)?;
    let (passed, values) = parted(arguments, above(operands)?);
    let kinds = uniforms(alloc, &made)?;
    let depth = sk_emitter::arguments(alloc, code, names, kinds.as_slice(), values)?;
    let numbers = containers(alloc, names, passed)?;
    put(
        code,
        Instr::Do(made.number, numbers, address(values.len())?),
    )?;
    Ok(depth)
}

/// Appends a call statement: its depth. What is not an instance is not called.
pub(crate) fn done(
    alloc: Global,
    code: &mut Vec<Instr>,
    names: &InMain<'_>,
    named: Option<Named<'_>>,
    arguments: &[Expr],
) -> Result<usize, AllocError>
    ensures code { OnOk result (code.new.items ≡ code.old.items ++ parts.do_named (option_map named_of named.entry) (map main_piece arguments.now) names.now (length code.old.items)) }
    ensures depth { IfOk result (λ depth. depth ≡ parts.do_named_depth (option_map named_of named.entry) (map main_piece arguments.now) names.now) }
{
    match named {
        Some(Named::Called(made)) => called(alloc, code, names, made, arguments),
        Some(Named::Number(_, _)) => Ok(0),
        Some(Named::Whole(_, _)) => Ok(0),
        None => Ok(0),
    }
}
