ghost use Rattle.std.specs.Prelude.{◌≡◌, ◌+◌, ◌++◌, [], ◌∷◌, length, max, suc, map, take, drop, slice_get, OnOk, IfOk};
ghost use Rattle.sk_scheme.specs.Pieces as pieces;
ghost use Rattle.sk_meaning.specs.Expressions as tree;
ghost use Rattle.sk_emitter.specs.Applications.{piece_of, argument_code, numbers_in, application_code, application_depth, used_code};

use crate::applied::{Applied, Given, Use};
use crate::output::{above, address, ahead, fill, flags, narrow, prefix, put, room, sum};
use crate::surrounding::Surrounding;
use crate::types::{kind_type, operation_type, prefix_type, result_type, wider};
use sk_base::{Op, Ty};
use sk_isa::Instr;
use sk_tree::{Expr, ParamKind};
use sqlite_items::Items;
use std::alloc::{AllocError, Global};
use std::cmp::max;

/// The first so many parts, and the others.
pub fn parted(parts: &[Expr], count: usize) -> (&[Expr], &[Expr])
    ensures first { result.0.now ≡ take count parts.now }
    ensures others { result.1.now ≡ drop count parts.now }
{
    if count <= parts.len() {
        parts.split_at(count)
    } else {
        (parts, &[])
    }
}

/// The number of the container that a part names.
fn container_in<N: Surrounding>(names: &N, part: &Expr) -> u32
    ensures { result ≡ N.number names.now (piece_of N.leaves part.now).name }
{
    match part {
        Expr::Name(name) => names.container(name.as_bytes()),
        Expr::Apply(_, _) => names.container(&[]),
        _ => names.container(&[]),
    }
}

/// The numbers of the containers that parts name.
pub fn containers<N: Surrounding>(
    alloc: Global,
    names: &N,
    parts: &[Expr],
) -> Result<Items<u32>, AllocError>
    ensures { IfOk result (λ numbers. numbers ≡ numbers_in N.number (map (piece_of N.leaves) parts.now) names.now) }
{
    let mut numbers = Items::new(alloc);
    for part in parts {
        numbers.push(container_in(names, part))?;
    }
    Ok(numbers)
}

/// Uses the values of so many parts behind the containers of others, or takes their code back as far as a start.
fn use_values(
    code: &mut Vec<Instr>,
    used: Use,
    start: usize,
    containers: Items<u32>,
    count: usize,
) -> Result<(), AllocError>
    ensures { OnOk result (code.new.items ≡ used_code used start code.old.items containers count) }
{
    match used {
        Use::Nothing => {
            code.truncate(start);
            Ok(())
        }
        Use::Left => Ok(()),
        Use::Item(slot) => put(code, Instr::Item(slot, address(count)?)),
        Use::Region(slot) => put(code, Instr::Region(slot, address(count)?)),
        Use::Call(function) => put(code, Instr::Call(function)),
        Use::Get(made) => put(code, Instr::Get(made, containers, address(count)?)),
    }
}

/// Appends an expression.
#[cycle(expression)]
pub fn expression<N: Surrounding>(
    alloc: Global,
    code: &mut Vec<Instr>,
    names: &N,
    expr: &Expr,
) -> Result<Given, AllocError>
    ensures code { OnOk result (code.new.items ≡ code.old.items ++ (piece_of N.leaves expr.now).code names.now (length code.old.items)) }
    ensures given { IfOk result (λ given. given ≡ record { ty = (piece_of N.leaves expr.now).ty names.now; depth = (piece_of N.leaves expr.now).depth names.now }) }
{
    match expr {
        Expr::Number(ty, number) => {
            put(code, Instr::Push(*number))?;
            Ok(Given { ty: *ty, depth: 1 })
        }
        Expr::Name(name) => names.scalar(code, name.as_bytes()),
        Expr::Field(name, field) => names.field(alloc, code, name.as_bytes(), field.as_bytes()),
        Expr::Method(name, method) => names.method(alloc, code, name.as_bytes(), method.as_bytes()),
        Expr::Unary(op, part) => {
            let given = expression(alloc, code, names, part.get())?;
            put(code, prefix(*op, given.ty))?;
            Ok(Given {
                ty: prefix_type(*op, given.ty),
                depth: given.depth,
            })
        }
        Expr::Cast(ty, part) => {
            let depth = wanted(alloc, code, names, *ty, part.get())?;
            Ok(Given { ty: *ty, depth })
        }
        Expr::Binary(op, left, right) => binary(alloc, code, names, *op, left.get(), right.get()),
        Expr::Both(left, right) => {
            let depth = both(alloc, code, names, left.get(), right.get())?;
            Ok(Given { ty: Ty::Int, depth })
        }
        Expr::Either(left, right) => {
            let depth = either(alloc, code, names, left.get(), right.get())?;
            Ok(Given { ty: Ty::Int, depth })
        }
        Expr::Choose(test, one, other) => {
            choose(alloc, code, names, test.get(), one.get(), other.get())
        }
        Expr::Apply(name, parts) => {
            let applied = names.applied(alloc, name.as_bytes())?;
            apply(alloc, code, names, applied, parts.as_slice())
        }
    }
}

/// Appends an expression where a value of a type is wanted: its depth.
#[cycle(expression)]
pub fn wanted<N: Surrounding>(
    alloc: Global,
    code: &mut Vec<Instr>,
    names: &N,
    ty: Ty,
    expr: &Expr,
) -> Result<usize, AllocError>
    ensures code { OnOk result (code.new.items ≡ code.old.items ++ pieces.wanted_code ty (piece_of N.leaves expr.now) names.now (length code.old.items)) }
    ensures depth { IfOk result (λ depth. depth ≡ (piece_of N.leaves expr.now).depth names.now) }
{
    let given = expression(alloc, code, names, expr)?;
    narrow(code, ty, given.ty)?;
    Ok(given.depth)
}

/// An operator behind its operands, from left to right.
#[cycle(expression)]
fn binary<N: Surrounding>(
    alloc: Global,
    code: &mut Vec<Instr>,
    names: &N,
    op: Op,
    left: &Expr,
    right: &Expr,
) -> Result<Given, AllocError>
    ensures code { OnOk result (code.new.items ≡ code.old.items
        ++ (pieces.then_code ((piece_of N.leaves left.now).code names.now (length code.old.items)) ((piece_of N.leaves right.now).code names.now) (length code.old.items)
        ++ Instr.Binary op (tree.operation_type op ((piece_of N.leaves left.now).ty names.now) ((piece_of N.leaves right.now).ty names.now)) ∷ [])) }
    ensures given { IfOk result (λ given. given ≡ record {
      ty = tree.result_type op ((piece_of N.leaves left.now).ty names.now) ((piece_of N.leaves right.now).ty names.now);
      depth = max ((piece_of N.leaves left.now).depth names.now) (suc ((piece_of N.leaves right.now).depth names.now));
    }) }
{
    let one = expression(alloc, code, names, left)?;
    let other = expression(alloc, code, names, right)?;
    put(
        code,
        Instr::Binary(op, operation_type(op, one.ty, other.ty)),
    )?;
    Ok(Given {
        ty: result_type(op, one.ty, other.ty),
        depth: max(one.depth, above(other.depth)?),
    })
}

/// Appends `&&`: its depth.
#[cycle(expression)]
fn both<N: Surrounding>(
    alloc: Global,
    code: &mut Vec<Instr>,
    names: &N,
    left: &Expr,
    right: &Expr,
) -> Result<usize, AllocError>
    ensures code { OnOk result (code.new.items ≡ code.old.items ++ pieces.both_code ((piece_of N.leaves left.now).code names.now) ((piece_of N.leaves right.now).code names.now) (length code.old.items)) }
    ensures depth { IfOk result (λ depth. depth ≡ max ((piece_of N.leaves left.now).depth names.now) ((piece_of N.leaves right.now).depth names.now)) }
{
    let one = expression(alloc, code, names, left)?;
    let first = room(code)?;
    let other = expression(alloc, code, names, right)?;
    let second = room(code)?;
    let fails = ahead(code.len(), 2)?;
    let ends = ahead(code.len(), 3)?;
    flags(code, ends)?;
    fill(code, first, Instr::Zero(fails));
    fill(code, second, Instr::Zero(fails));
    Ok(max(one.depth, other.depth))
}

/// Appends `||`: its depth.
#[cycle(expression)]
fn either<N: Surrounding>(
    alloc: Global,
    code: &mut Vec<Instr>,
    names: &N,
    left: &Expr,
    right: &Expr,
) -> Result<usize, AllocError>
    ensures code { OnOk result (code.new.items ≡ code.old.items ++ pieces.either_code ((piece_of N.leaves left.now).code names.now) ((piece_of N.leaves right.now).code names.now) (length code.old.items)) }
    ensures depth { IfOk result (λ depth. depth ≡ max ((piece_of N.leaves left.now).depth names.now) ((piece_of N.leaves right.now).depth names.now)) }
{
    let one = expression(alloc, code, names, left)?;
    let second = ahead(code.len(), 3)?;
    put(code, Instr::Zero(second))?;
    put(code, Instr::Push(1))?;
    let holds = room(code)?;
    let other = expression(alloc, code, names, right)?;
    let fails = ahead(code.len(), 3)?;
    let ends = ahead(code.len(), 4)?;
    put(code, Instr::Zero(fails))?;
    flags(code, ends)?;
    fill(code, holds, Instr::Jump(ends));
    Ok(max(one.depth, other.depth))
}

/// Appends `test ? one : other`.
#[cycle(expression)]
fn choose<N: Surrounding>(
    alloc: Global,
    code: &mut Vec<Instr>,
    names: &N,
    test: &Expr,
    one: &Expr,
    other: &Expr,
) -> Result<Given, AllocError>
    ensures code { OnOk result (code.new.items ≡ code.old.items
        ++ pieces.choice_code ((piece_of N.leaves test.now).code names.now) ((piece_of N.leaves one.now).code names.now) ((piece_of N.leaves other.now).code names.now) (length code.old.items)) }
    ensures given { IfOk result (λ given. given ≡ record {
      ty = tree.wider ((piece_of N.leaves one.now).ty names.now) ((piece_of N.leaves other.now).ty names.now);
      depth = max ((piece_of N.leaves test.now).depth names.now) (max ((piece_of N.leaves one.now).depth names.now) ((piece_of N.leaves other.now).depth names.now));
    }) }
{
    let first = expression(alloc, code, names, test)?;
    let fails = room(code)?;
    let second = expression(alloc, code, names, one)?;
    let jump = room(code)?;
    let third = address(code.len())?;
    let last = expression(alloc, code, names, other)?;
    let ends = address(code.len())?;
    fill(code, fails, Instr::Zero(third));
    fill(code, jump, Instr::Jump(ends));
    Ok(Given {
        ty: wider(second.ty, last.ty),
        depth: max(first.depth, max(second.depth, last.depth)),
    })
}

/// Appends an argument for a parameter of a kind, or as it is: its depth.
#[cycle(expression)]
fn argument<N: Surrounding>(
    alloc: Global,
    code: &mut Vec<Instr>,
    names: &N,
    kind: Option<ParamKind>,
    part: &Expr,
) -> Result<usize, AllocError>
    ensures code { OnOk result (code.new.items ≡ code.old.items ++ argument_code kind (piece_of N.leaves part.now) names.now (length code.old.items)) }
    ensures depth { IfOk result (λ depth. depth ≡ (piece_of N.leaves part.now).depth names.now) }
{
    match kind {
        Some(kind) => wanted(alloc, code, names, kind_type(kind), part),
        None => {
            let given = expression(alloc, code, names, part)?;
            Ok(given.depth)
        }
    }
}

/// The kind of a parameter, if there is one at that place.
fn kind_at(kinds: &[ParamKind], place: usize) -> Option<ParamKind>
    ensures { result ≡ slice_get kinds.now place }
{
    kinds.get(place).copied()
}

/// Appends arguments for parameters of these kinds, or expressions each as it is where there are none: their depth.
#[cycle(expression)]
pub fn arguments<N: Surrounding>(
    alloc: Global,
    code: &mut Vec<Instr>,
    names: &N,
    kinds: &[ParamKind],
    parts: &[Expr],
) -> Result<usize, AllocError>
    ensures code { OnOk result (code.new.items ≡ code.old.items ++ pieces.arguments_code (kinds.now) (map (piece_of N.leaves) parts.now) names.now (length code.old.items)) }
    ensures depth { IfOk result (λ depth. depth ≡ pieces.parts_depth (map (piece_of N.leaves) parts.now) names.now) }
{
    let mut depth = 0;
    for (i, part) in parts.iter().enumerate() {
        let own = argument(alloc, code, names, kind_at(kinds, i), part)?;
        depth = max(depth, sum(i, own)?);
    }
    Ok(max(depth, parts.len()))
}

/// Appends an application of a name to parts, of which the first may be containers.
#[cycle(expression)]
fn apply<N: Surrounding>(
    alloc: Global,
    code: &mut Vec<Instr>,
    names: &N,
    applied: Applied,
    parts: &[Expr],
) -> Result<Given, AllocError>
    ensures code { OnOk result (code.new.items ≡ code.old.items ++ application_code applied N.number (map (piece_of N.leaves) parts.now) names.now (length code.old.items)) }
    ensures given { IfOk result (λ given. given ≡ record {
      ty = applied.ty;
      depth = application_depth applied (map (piece_of N.leaves) parts.now) names.now;
    }) }
{
    let start = code.len();
    let (passed, values) = parted(parts, applied.passed);
    let depth = arguments(alloc, code, names, applied.kinds.as_slice(), values)?;
    let numbers = containers(alloc, names, passed)?;
    use_values(code, applied.used, start, numbers, values.len())?;
    Ok(Given {
        ty: applied.ty,
        depth: max(1, depth),
    })
}
