ghost use Rattle.std.specs.Prelude.{◌≡◌, map, OnOk, IfOk};
ghost use Rattle.sk_scheme.specs.Scheme as scheme;
ghost use Rattle.sk_scheme.specs.Scheme.{compiled_of, emitting_of};
ghost use Rattle.sk_emitter.specs.Written.{Writes, declares, assigns, gives, turns_emitted};

use crate::expressions::{expression, wanted};
use crate::names::{InScope, Place};
use crate::output::{address, fill, put, room};
use crate::types::kind_type;
use sk_base::Ty;
use sk_isa::Instr;
use sk_names::Name;
use sk_tree::{Expr, ParamKind, Statement, What};
use std::alloc::{AllocError, Global};
use std::cmp::max;

/// The code of a function as far as it is written, with the names in scope behind it and the slots so far.
#[derive(Drop)]
pub(crate) struct Writer<'a> {
    pub names: InScope<'a>,
    pub ret: Ty,
    pub code: Vec<Instr>,
    pub slots: Vec<ParamKind>,
}

/// Appends the declaration of a scalar, which has the next slot. Each of these functions gives the most values on the stack.
fn declare<'a>(
    alloc: Global,
    writer: &mut Writer<'a>,
    ty: Ty,
    name: &'a Name,
    expr: &Expr,
) -> Result<usize, AllocError>
    ensures { IfOk result (λ depth. Writes (declares ty name.now expr.now) writer.old writer.new depth) }
{
    let number = address(writer.slots.len())?;
    let kind = ParamKind::Scalar(ty);
    let depth = wanted(alloc, &mut writer.code, &writer.names, ty, expr)?;
    put(&mut writer.code, Instr::Store(number))?;
    writer
        .names
        .declare(name.as_bytes(), Place { number, kind })?;
    writer.slots.push(kind)?;
    Ok(depth)
}

/// Appends an expression to where it cannot be assigned, which leaves no code.
fn skip(
    alloc: Global,
    code: &mut Vec<Instr>,
    names: &InScope<'_>,
    expr: &Expr,
) -> Result<usize, AllocError>
    ensures code { OnOk result (code.new.items ≡ code.old.items) }
    ensures depth { IfOk result (λ depth. depth ≡ (compiled_of expr.now).depth names.now) }
{
    let start = code.len();
    let given = expression(alloc, code, names, expr)?;
    code.truncate(start);
    Ok(given.depth)
}

/// A value in the slot of a name, as a value of its type. Where the name is not in scope, nothing is written.
fn assign(
    alloc: Global,
    writer: &mut Writer<'_>,
    name: &[u8],
    expr: &Expr,
) -> Result<usize, AllocError>
    ensures { IfOk result (λ depth. Writes (assigns name.now expr.now) writer.old writer.new depth) }
{
    match writer.names.place(name) {
        Some(place) => {
            let ty = kind_type(place.kind);
            let depth = wanted(alloc, &mut writer.code, &writer.names, ty, expr)?;
            put(&mut writer.code, Instr::Store(place.number))?;
            Ok(depth)
        }
        None => skip(alloc, &mut writer.code, &writer.names, expr),
    }
}

/// The function's value, as a value of its type, and its end.
fn give(alloc: Global, writer: &mut Writer<'_>, expr: &Expr) -> Result<usize, AllocError>
    ensures { IfOk result (λ depth. Writes (gives expr.now) writer.old writer.new depth) }
{
    let ty = writer.ret;
    let depth = wanted(alloc, &mut writer.code, &writer.names, ty, expr)?;
    put(&mut writer.code, Instr::Ret)?;
    Ok(depth)
}

/// Appends a statement.
#[cycle(statement)]
fn statement<'a>(
    alloc: Global,
    writer: &mut Writer<'a>,
    statement: &'a Statement,
) -> Result<usize, AllocError>
    ensures { IfOk result (λ depth. Writes (emitting_of statement.now) writer.old writer.new depth) }
{
    match &statement.what {
        What::Declare(ty, name, expr) => declare(alloc, writer, *ty, name, expr),
        What::Assign(name, expr) => assign(alloc, writer, name.as_bytes(), expr),
        What::If(test, one, other) => {
            if other.is_empty() {
                only(alloc, writer, test, one.as_slice())
            } else {
                choice(alloc, writer, test, one.as_slice(), other.as_slice())
            }
        }
        What::For(first, test, step, body) => turns(
            alloc,
            writer,
            first.get(),
            test,
            step.get(),
            body.as_slice(),
        ),
        What::Return(expr) => give(alloc, writer, expr),
        _ => Ok(0),
    }
}

/// Appends statements one after another.
#[cycle(statement)]
pub(crate) fn all<'a>(
    alloc: Global,
    writer: &mut Writer<'a>,
    statements: &'a [Statement],
) -> Result<usize, AllocError>
    ensures { IfOk result (λ depth. Writes (scheme.all_emitted (map emitting_of statements.now)) writer.old writer.new depth) }
{
    let mut depth = 0;
    for one in statements {
        depth = max(depth, statement(alloc, writer, one)?);
    }
    Ok(depth)
}

/// Appends a block, with whose end its names go.
#[cycle(statement)]
fn block<'a>(
    alloc: Global,
    writer: &mut Writer<'a>,
    statements: &'a [Statement],
) -> Result<usize, AllocError>
    ensures { IfOk result (λ depth. Writes (scheme.block_emitted (map emitting_of statements.now)) writer.old writer.new depth) }
{
    let outer = writer.names.depth();
    let depth = all(alloc, writer, statements)?;
    writer.names.leave(outer);
    Ok(depth)
}

/// Appends a test, and where it holds a block.
#[cycle(statement)]
fn only<'a>(
    alloc: Global,
    writer: &mut Writer<'a>,
    test: &Expr,
    one: &'a [Statement],
) -> Result<usize, AllocError>
    ensures { IfOk result (λ depth. Writes (scheme.if_emitted (compiled_of test.now) (map emitting_of one.now)) writer.old writer.new depth) }
{
    let first = expression(alloc, &mut writer.code, &writer.names, test)?;
    let fails = room(&mut writer.code)?;
    let inner = block(alloc, writer, one)?;
    let ends = address(writer.code.len())?;
    fill(&mut writer.code, fails, Instr::Zero(ends));
    Ok(max(first.depth, inner))
}

/// Appends a test, and one of two blocks.
#[cycle(statement)]
fn choice<'a>(
    alloc: Global,
    writer: &mut Writer<'a>,
    test: &Expr,
    one: &'a [Statement],
    other: &'a [Statement],
) -> Result<usize, AllocError>
    ensures { IfOk result (λ depth. Writes (scheme.if_else_emitted (compiled_of test.now) (map emitting_of one.now) (map emitting_of other.now)) writer.old writer.new depth) }
{
    let first = expression(alloc, &mut writer.code, &writer.names, test)?;
    let fails = room(&mut writer.code)?;
    let inner = block(alloc, writer, one)?;
    let jump = room(&mut writer.code)?;
    let third = address(writer.code.len())?;
    let last = block(alloc, writer, other)?;
    let ends = address(writer.code.len())?;
    fill(&mut writer.code, fails, Instr::Zero(third));
    fill(&mut writer.code, jump, Instr::Jump(ends));
    Ok(max(first.depth, max(inner, last)))
}

/// Appends what comes first, and a loop, with whose end its names go.
#[cycle(statement)]
fn turns<'a>(
    alloc: Global,
    writer: &mut Writer<'a>,
    first: &'a Statement,
    test: &Expr,
    step: &'a Statement,
    body: &'a [Statement],
) -> Result<usize, AllocError>
    ensures { IfOk result (λ depth. Writes (turns_emitted (emitting_of first.now) (compiled_of test.now) (emitting_of step.now) (map emitting_of body.now)) writer.old writer.new depth) }
{
    let outer = writer.names.depth();
    let depth = statement(alloc, writer, first)?;
    let inner = turn(alloc, writer, test, step, body)?;
    writer.names.leave(outer);
    Ok(max(depth, inner))
}

/// Appends the test of a loop, and where it holds a turn, the body, the step, and the test again. No name stays in scope.
#[cycle(statement)]
fn turn<'a>(
    alloc: Global,
    writer: &mut Writer<'a>,
    test: &Expr,
    step: &'a Statement,
    body: &'a [Statement],
) -> Result<usize, AllocError>
    ensures { IfOk result (λ depth. Writes (scheme.loop_emitted (compiled_of test.now) (scheme.block_emitted (map emitting_of body.now)) (emitting_of step.now)) writer.old writer.new depth) }
{
    let outer = writer.names.depth();
    let start = address(writer.code.len())?;
    let given = expression(alloc, &mut writer.code, &writer.names, test)?;
    let fails = room(&mut writer.code)?;
    put(&mut writer.code, Instr::Turn)?;
    let inner = block(alloc, writer, body)?;
    let last = statement(alloc, writer, step)?;
    put(&mut writer.code, Instr::Jump(start))?;
    let ends = address(writer.code.len())?;
    fill(&mut writer.code, fails, Instr::Zero(ends));
    writer.names.leave(outer);
    Ok(max(given.depth, max(inner, last)))
}
