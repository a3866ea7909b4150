ghost use Rattle.std.specs.Prelude.{IfOk, map};
ghost use Rattle.sk_main_emitter.specs.Written.{Writes};
ghost use Rattle.sk_main_scheme.specs.MainScheme.{all_emitted, item_emitted, emitting_step};
ghost use Rattle.sk_tree.specs.declared.tree.What.TheOpen as what;

use crate::writer::{Writer, count};
use sk_emitter::{expression, put};
use sk_isa::Instr;
use sk_names::Text;
use sk_tree::{Expr, Item};
use std::alloc::{AllocError, Global};
use std::cmp::max;

/// Appends a value that is printed. Each of these functions gives the most values on the stack.
fn value(alloc: Global, writer: &mut Writer<'_>, expr: &Expr) -> Result<usize, AllocError>
    ensures { IfOk result (λ depth. Writes (item_emitted (Item.Value expr.now)) writer.old writer.new depth) }
{
    let given = expression(alloc, &mut writer.code, &writer.names, expr)?;
    put(&mut writer.code, Instr::Print)?;
    Ok(given.depth)
}

/// Appends a text that is printed.
fn text(alloc: Global, writer: &mut Writer<'_>, text: &Text) -> Result<usize, AllocError>
    ensures { IfOk result (λ depth. Writes (item_emitted (Item.Text text.now)) writer.old writer.new depth) }
{
    let text = Text::from_vec(Vec::from_slice(alloc, text.as_bytes())?);
    put(&mut writer.code, Instr::Text(text))?;
    Ok(0)
}

/// Appends the end of a line that is printed.
fn end(writer: &mut Writer<'_>) -> Result<usize, AllocError>
    ensures { IfOk result (λ depth. Writes (item_emitted Item.End) writer.old writer.new depth) }
{
    put(&mut writer.code, Instr::Endl)?;
    Ok(0)
}

/// Appends an item that is printed.
fn item(alloc: Global, writer: &mut Writer<'_>, item: &Item) -> Result<usize, AllocError>
    ensures { IfOk result (λ depth. Writes (item_emitted item.now) writer.old writer.new depth) }
{
    match item {
        Item::Value(expr) => value(alloc, writer, expr),
        Item::Text(shown) => text(alloc, writer, shown),
        Item::End => end(writer),
    }
}

/// Appends items that are printed.
fn items(alloc: Global, writer: &mut Writer<'_>, items: &[Item]) -> Result<usize, AllocError>
    ensures { IfOk result (λ depth. Writes (all_emitted (map item_emitted items.now)) writer.old writer.new depth) }
{
    let mut depth = 0;
    for one in items {
        depth = max(depth, item(alloc, writer, one)?);
    }
    Ok(depth)
}

/// Appends a statement that prints.
pub(crate) fn print(
    alloc: Global,
    writer: &mut Writer<'_>,
    line: u32,
    shown: &[Item],
) -> Result<usize, AllocError>
    ensures { IfOk result (λ depth. Writes (emitting_step (what.Print shown.now) line) writer.old writer.new depth) }
{
    count(writer, line)?;
    let depth = items(alloc, writer, shown)?;
    Ok(depth)
}
