ghost use Rattle.std.specs.Prelude.{◌≡◌, ◌++◌, ◌∷◌, [], OnOk, IfOk};
ghost use Rattle.sk_main_emitter.specs.Written.{Writes};
ghost use Rattle.sk_main_scheme.specs.MainScheme.{Whole, emitting_step};
ghost use Rattle.sk_tree.specs.declared.tree.What.TheOpen as what;

use crate::instances::made;
use crate::named::Named;
use crate::settings::set;
use crate::values::{assigned, done, poked, sized};
use crate::writer::Writer;
use sk_base::Ty;
use sk_emitter::{Surrounding, address, expression, put, wanted};
use sk_isa::Instr;
use sk_names::{Name, Text};
use sk_tree::{Declared, Expr, Instance, Setting};
use std::alloc::{AllocError, Global};

/// Appends the declaration of a scalar, which has the next slot. Each of these functions begins with the statement's line,
/// and gives the most values on the stack.
pub(crate) fn declare<'a>(
    alloc: Global,
    writer: &mut Writer<'a>,
    line: u32,
    ty: Ty,
    name: &'a Name,
    expr: &Expr,
) -> Result<usize, AllocError>
    ensures { IfOk result (λ depth. Writes (emitting_step (what.Declare ty name.now expr.now) line) writer.old writer.new depth) }
{
    let slot = address(writer.slots.len())?;
    put(&mut writer.code, Instr::Count(line))?;
    let depth = wanted(alloc, &mut writer.code, &writer.names, ty, expr)?;
    put(&mut writer.code, Instr::Store(slot))?;
    writer
        .names
        .declare(name.as_bytes(), Named::Number(slot, ty))?;
    writer.slots.push(ty)?;
    Ok(depth)
}

/// Appends an assignment. Where the name is no scalar, the value is left.
pub(crate) fn assign(
    alloc: Global,
    writer: &mut Writer<'_>,
    line: u32,
    name: &Name,
    expr: &Expr,
) -> Result<usize, AllocError>
    ensures { IfOk result (λ depth. Writes (emitting_step (what.Assign name.now expr.now) line) writer.old writer.new depth) }
{
    put(&mut writer.code, Instr::Count(line))?;
    let named = writer.names.named(name.as_bytes());
    let depth = assigned(alloc, &mut writer.code, &writer.names, named, expr)?;
    Ok(depth)
}

/// Appends the write of an element: its places, and the value.
pub(crate) fn poke(
    alloc: Global,
    writer: &mut Writer<'_>,
    line: u32,
    name: &Name,
    places: &[Expr],
    value: &Expr,
) -> Result<usize, AllocError>
    ensures { IfOk result (λ depth. Writes (emitting_step (what.Poke name.now places.now value.now) line) writer.old writer.new depth) }
{
    let name = name.as_bytes();
    put(&mut writer.code, Instr::Count(line))?;
    let named = writer.names.named(name);
    let depth = poked(alloc, &mut writer.code, &writer.names, named, places, value)?;
    let container = writer.names.container(name);
    put(
        &mut writer.code,
        Instr::Poke(container, address(places.len())?),
    )?;
    Ok(depth)
}

/// A container that comes into scope with the next number.
fn hold<'a>(
    alloc: Global,
    writer: &mut Writer<'a>,
    name: &'a Name,
    number: u32,
    kind: u8,
    ty: Ty,
) -> Result<(), AllocError>
    ensures { OnOk result (writer.new ≡ record writer.old {
      names = record { functions = writer.old.names.functions; scope = (name.now, Whole number ty) ∷ writer.old.names.scope };
      containers = writer.old.containers ++ record { name = name.now; kind = kind; ty = ty } ∷ [];
    }) }
{
    let name = name.as_bytes();
    let text = Text::from_vec(Vec::from_slice(alloc, name)?);
    writer.names.declare(name, Named::Whole(number, ty))?;
    writer.containers.push(Declared {
        name: text,
        kind,
        ty,
    })?;
    Ok(())
}

/// Appends the declaration of a container by its sizes and its fill value.
pub(crate) fn make<'a>(
    alloc: Global,
    writer: &mut Writer<'a>,
    line: u32,
    kind: u8,
    ty: Ty,
    name: &'a Name,
    arguments: &[Expr],
) -> Result<usize, AllocError>
    ensures { IfOk result (λ depth. Writes (emitting_step (what.Make kind ty name.now arguments.now) line) writer.old writer.new depth) }
{
    let number = address(writer.containers.len())?;
    put(&mut writer.code, Instr::Count(line))?;
    let depth = sized(alloc, &mut writer.code, &writer.names, ty, kind, arguments)?;
    put(
        &mut writer.code,
        Instr::Make(number, kind, ty, u32::from(kind)),
    )?;
    hold(alloc, writer, name, number, kind, ty)?;
    Ok(depth)
}

/// Appends the declaration of a container that takes an input.
pub(crate) fn take<'a>(
    alloc: Global,
    writer: &mut Writer<'a>,
    line: u32,
    kind: u8,
    ty: Ty,
    name: &'a Name,
    input: &Text,
) -> Result<usize, AllocError>
    ensures { IfOk result (λ depth. Writes (emitting_step (what.Take kind ty name.now input.now) line) writer.old writer.new depth) }
{
    let number = address(writer.containers.len())?;
    let input = Text::from_vec(Vec::from_slice(alloc, input.as_bytes())?);
    put(&mut writer.code, Instr::Count(line))?;
    put(&mut writer.code, Instr::Take(number, kind, ty, input))?;
    hold(alloc, writer, name, number, kind, ty)?;
    Ok(0)
}

/// Appends the declaration of an instance, which has the next number.
pub(crate) fn instance<'a>(
    writer: &mut Writer<'a>,
    line: u32,
    instance: &'a Instance,
) -> Result<usize, AllocError>
    ensures { IfOk result (λ depth. Writes (emitting_step (what.Instance instance.now) line) writer.old writer.new depth) }
{
    let number = address(writer.instances.len())?;
    put(&mut writer.code, Instr::Count(line))?;
    let made = made(writer.names.functions(), number, instance)?;
    writer
        .names
        .declare(instance.name.as_bytes(), Named::Called(made))?;
    writer.instances.push(instance)?;
    Ok(0)
}

/// Appends a setting of an instance.
pub(crate) fn set_instance(
    alloc: Global,
    writer: &mut Writer<'_>,
    line: u32,
    name: &Name,
    setting: &Setting,
) -> Result<usize, AllocError>
    ensures { IfOk result (λ depth. Writes (emitting_step (what.Set name.now setting.now) line) writer.old writer.new depth) }
{
    put(&mut writer.code, Instr::Count(line))?;
    let named = writer.names.named(name.as_bytes());
    let depth = set(alloc, &mut writer.code, &writer.names, named, setting)?;
    Ok(depth)
}

/// Appends a call statement.
pub(crate) fn call(
    alloc: Global,
    writer: &mut Writer<'_>,
    line: u32,
    name: &Name,
    arguments: &[Expr],
) -> Result<usize, AllocError>
    ensures { IfOk result (λ depth. Writes (emitting_step (what.Call name.now arguments.now) line) writer.old writer.new depth) }
{
    put(&mut writer.code, Instr::Count(line))?;
    let named = writer.names.named(name.as_bytes());
    let depth = done(alloc, &mut writer.code, &writer.names, named, arguments)?;
    Ok(depth)
}

/// Appends main's value and its end.
pub(crate) fn give(
    alloc: Global,
    writer: &mut Writer<'_>,
    line: u32,
    expr: &Expr,
) -> Result<usize, AllocError>
    ensures { IfOk result (λ depth. Writes (emitting_step (what.Return expr.now) line) writer.old writer.new depth) }
{
    put(&mut writer.code, Instr::Count(line))?;
    let given = expression(alloc, &mut writer.code, &writer.names, expr)?;
    put(&mut writer.code, Instr::Pop)?;
    put(&mut writer.code, Instr::Halt)?;
    Ok(given.depth)
}
