ghost use Rattle.std.specs.Prelude.{[], map, IfOk};
ghost use Rattle.sk_main_emitter.specs.Statements.{choice_emitted};
ghost use Rattle.sk_main_emitter.specs.Written.{Writes};
ghost use Rattle.sk_main_scheme.specs.MainScheme as scheme;
ghost use Rattle.sk_main_scheme.specs.MainScheme.{main_piece, emitting_of};
ghost use Rattle.sk_tree.specs.declared.tree.What.TheOpen as what;

use crate::printing::print;
use crate::simple::{assign, call, declare, give, instance, make, poke, set_instance, take};
use crate::writer::{Writer, count};
use sk_emitter::{address, expression, fill, put, room};
use sk_isa::Instr;
use sk_tree::{Expr, Statement, What};
use std::alloc::{AllocError, Global};
use std::cmp::max;

/// Appends a statement. Each of these functions gives the most values on the stack.
#[cycle(statement)]
fn statement<'a>(
    alloc: Global,
    writer: &mut Writer<'a>,
    statement: &'a Statement,
) -> Result<usize, AllocError>
    ensures { IfOk result (λ depth. Writes (emitting_of statement.now) writer.old writer.new depth) }
{
    let line = statement.line;
    match &statement.what {
        What::Declare(ty, name, expr) => declare(alloc, writer, line, *ty, name, expr),
        What::Assign(name, expr) => assign(alloc, writer, line, name, expr),
        What::Poke(name, at, value) => poke(alloc, writer, line, name, at.as_slice(), value),
        What::Make(kind, ty, name, sizes) => {
            make(alloc, writer, line, *kind, *ty, name, sizes.as_slice())
        }
        What::Take(kind, ty, name, input) => { take(alloc, writer, line, *kind, *ty, name, input) }
        What::Instance(made) => instance(writer, line, made),
        What::Set(name, setting) => set_instance(alloc, writer, line, name, setting),
        What::Call(name, arguments) => call(alloc, writer, line, name, arguments.as_slice()),
        What::Print(items) => print(alloc, writer, line, items.as_slice()),
        What::If(test, one, other) => {
            branch(alloc, writer, line, test, one.as_slice(), other.as_slice())
        }
        What::For(first, test, step, body) => {
            let (first, step) = (first.get(), step.get());
            turns(alloc, writer, line, first, test, step, body.as_slice())
        }
        What::Return(expr) => give(alloc, writer, line, expr),
    }
}

/// Appends statements one after another.
#[cycle(statement)]
pub(crate) fn all<'a>(
    alloc: Global,
    writer: &mut Writer<'a>,
    statements: &'a [Statement],
) -> Result<usize, AllocError>
    ensures { IfOk result (λ depth. Writes (scheme.all_emitted (map emitting_of statements.now)) writer.old writer.new depth) }
{
    let mut depth = 0;
    for one in statements {
        depth = max(depth, statement(alloc, writer, one)?);
    }
    Ok(depth)
}

/// Appends a block, with whose end its names go and its containers end.
#[cycle(statement)]
fn block<'a>(
    alloc: Global,
    writer: &mut Writer<'a>,
    statements: &'a [Statement],
) -> Result<usize, AllocError>
    ensures { IfOk result (λ depth. Writes (scheme.block_emitted (map emitting_of statements.now)) writer.old writer.new depth) }
{
    let outer = writer.names.depth();
    let depth = all(alloc, writer, statements)?;
    writer.names.drop_behind(&mut writer.code, outer)?;
    writer.names.leave(outer);
    Ok(depth)
}

/// Appends a branch, which begins with its line.
#[cycle(statement)]
fn branch<'a>(
    alloc: Global,
    writer: &mut Writer<'a>,
    line: u32,
    test: &Expr,
    one: &'a [Statement],
    other: &'a [Statement],
) -> Result<usize, AllocError>
    ensures { IfOk result (λ depth. Writes (scheme.counted line (scheme.if_emitted (main_piece test.now) (map emitting_of one.now) (map emitting_of other.now))) writer.old writer.new depth) }
{
    count(writer, line)?;
    let depth = blocks(alloc, writer, test, one, other)?;
    Ok(depth)
}

/// Appends a test, and one of two blocks, the second of which may be empty.
#[cycle(statement)]
fn blocks<'a>(
    alloc: Global,
    writer: &mut Writer<'a>,
    test: &Expr,
    one: &'a [Statement],
    other: &'a [Statement],
) -> Result<usize, AllocError>
    ensures { IfOk result (λ depth. Writes (scheme.if_emitted (main_piece test.now) (map emitting_of one.now) (map emitting_of other.now)) writer.old writer.new depth) }
{
    match other {
        [] => only(alloc, writer, test, one),
        [_, ..] => choice(alloc, writer, test, one, other),
    }
}

/// Appends a test, and where it holds a block.
#[cycle(statement)]
fn only<'a>(
    alloc: Global,
    writer: &mut Writer<'a>,
    test: &Expr,
    one: &'a [Statement],
) -> Result<usize, AllocError>
    ensures { IfOk result (λ depth. Writes (scheme.if_emitted (main_piece test.now) (map emitting_of one.now) []) writer.old writer.new depth) }
{
    let first = expression(alloc, &mut writer.code, &writer.names, test)?;
    let fails = room(&mut writer.code)?;
    let inner = block(alloc, writer, one)?;
    let ends = address(writer.code.len())?;
    fill(&mut writer.code, fails, Instr::Zero(ends));
    Ok(max(first.depth, inner))
}

/// Appends a test, and one of two blocks.
#[cycle(statement)]
fn choice<'a>(
    alloc: Global,
    writer: &mut Writer<'a>,
    test: &Expr,
    one: &'a [Statement],
    other: &'a [Statement],
) -> Result<usize, AllocError>
    ensures { IfOk result (λ depth. Writes (choice_emitted (main_piece test.now) (map emitting_of one.now) (map emitting_of other.now)) writer.old writer.new depth) }
{
    let first = expression(alloc, &mut writer.code, &writer.names, test)?;
    let fails = room(&mut writer.code)?;
    let inner = block(alloc, writer, one)?;
    let jump = room(&mut writer.code)?;
    let third = address(writer.code.len())?;
    let last = block(alloc, writer, other)?;
    let ends = address(writer.code.len())?;
    fill(&mut writer.code, fails, Instr::Zero(third));
    fill(&mut writer.code, jump, Instr::Jump(ends));
    Ok(max(first.depth, max(inner, last)))
}

/// Appends what comes first, and a loop, with whose end the names of its head go.
#[cycle(statement)]
fn turns<'a>(
    alloc: Global,
    writer: &mut Writer<'a>,
    line: u32,
    first: &'a Statement,
    test: &Expr,
    step: &'a Statement,
    body: &'a [Statement],
) -> Result<usize, AllocError>
    ensures { IfOk result (λ depth. Writes (scheme.for_emitted line (emitting_of first.now) (main_piece test.now) (emitting_of step.now) (map emitting_of body.now)) writer.old writer.new depth) }
{
    let outer = writer.names.depth();
    let depth = statement(alloc, writer, first)?;
    let inner = turn(alloc, writer, line, test, step, body)?;
    writer.names.leave(outer);
    Ok(max(depth, inner))
}

/// Appends the test of a loop, which is counted, and where it holds the body, the step, and the test again.
#[cycle(statement)]
fn turn<'a>(
    alloc: Global,
    writer: &mut Writer<'a>,
    line: u32,
    test: &Expr,
    step: &'a Statement,
    body: &'a [Statement],
) -> Result<usize, AllocError>
    ensures { IfOk result (λ depth. Writes (scheme.loop_emitted line (main_piece test.now) (scheme.block_emitted (map emitting_of body.now)) (emitting_of step.now)) writer.old writer.new depth) }
{
    let start = address(writer.code.len())?;
    put(&mut writer.code, Instr::Count(line))?;
    let given = expression(alloc, &mut writer.code, &writer.names, test)?;
    let fails = room(&mut writer.code)?;
    let inner = block(alloc, writer, body)?;
    let last = statement(alloc, writer, step)?;
    put(&mut writer.code, Instr::Jump(start))?;
    let ends = address(writer.code.len())?;
    fill(&mut writer.code, fails, Instr::Zero(ends));
    Ok(max(given.depth, max(inner, last)))
}
