//! The run of a code for a block of places: values that are stored, and the one that is returned.
ghost use Rattle.std.specs.Prelude.{◌≡◌, ℕ, ℤ, Some, IfSome, IsSome, ◌<◌, ◌≤◌, ◌+◌, ◌∷◌, List, length, pos, true, slice_get, slice_index_or};
ghost use Rattle.sk_columns.specs.declared.level.Level.TheVariants.{Here};
ghost use Rattle.sk_isa.specs.declared.code.Instr.TheVariants.{Ret, Store};
ghost use Rattle.sk_columns.specs.Blocks.{Gives, Proceeds, Reaches};
ghost use Rattle.sk_columns.specs.Cells.{cell_of};
ghost use Rattle.sk_columns.specs.Locals.{stored_in};

use crate::apply::settle;
use crate::block::{Code, arm, instr_at, walk};
use crate::lanes::Lanes;
use crate::level::Level;
use crate::locals::{Locals, begin, keep, level_in, span_of};
use sk_base::Cell;
use sk_isa::Instr;

/// Evaluates a code at as many places one behind another as `out` has cells: puts its value at each of them there. It fails
/// where the code does other things than choose between values and store them, where a piece of it traps at some of the
/// places, where a column is not as long, where it stores to a slot of which nothing is known, or reads
/// a field of which no consecutive numbers are known, and where there are fewer levels or rows than it needs: as many as values may stand on its stack, two more for each choice, and `stored_count` more.
/// Nothing is then said of `out`.
///
/// `out` is the row of the first of the `levels`, and `rows` has one of as many cells for each of the others. What is in
/// them before is not read.
pub fn evaluate<L: Lanes>(
    instrs: &[Instr],
    lanes: &L,
    out: &mut [Cell],
    levels: &mut [Level],
    rows: &mut [Cell],
) -> bool
    requires lends { L.lends lanes.now }
    ensures { result ≡ true → (place : ℕ) → place < length out.old
        → Gives instrs.now (L.known lanes.now place) (slice_index_or out.new place (pos 0)) }
{
    let Some(end) = end_of(instrs) else {
        return false;
    };
    let span = span_of(instrs);
    let Some(cells) = span.count.checked_mul(out.len()) else {
        return false;
    };
    if levels.len() < span.count || rows.len() < cells {
        return false;
    }
    let (locals, stack) = levels.split_at_mut(span.count);
    let (kept, above) = rows.split_at_mut(cells);
    begin(span.least, locals);
    body(
        &Code { instrs, lanes },
        end,
        span.least,
        locals,
        kept,
        stack,
        out,
        above,
    )
}

/// The address of the last instruction, where that ends a function.
fn end_of(instrs: &[Instr]) -> Option<usize>
    ensures { IfSome result (λ end. slice_get instrs.now end ≡ Some Ret) }
{
    if instrs.len() == 0 {
        return None;
    }
    let end = instrs.len() - 1;
    match instr_at(instrs, end) {
        Instr::Ret => Some(end),
        _ => None,
    }
}

/// Stores the values that are stored, and puts the last value of the code into a row.
fn body<L: Lanes>(
    code: &Code<L>,
    end: usize,
    least: u32,
    locals: &mut [Level],
    kept: &mut [Cell],
    stack: &mut [Level],
    first: &mut [Cell],
    above: &mut [Cell],
) -> bool
    requires lends { L.lends code.now.lanes.now }
    requires ends { slice_get code.now.instrs.now end ≡ Some Ret }
    ensures { result ≡ true → (place : ℕ) → place < length first.old
        → Gives code.now.instrs.now (stored_in least locals.old kept.old (length first.old) place (L.known code.now.lanes.now place)) (slice_index_or first.new place (pos 0)) }
{
    match statements(code, end, least, locals, kept, stack, first, above) {
        Some(from) => {
            let slots = Locals {
                lanes: code.lanes,
                least,
                levels: locals,
                rows: kept,
                block: first.len(),
            };
            let last = Code {
                instrs: code.instrs,
                lanes: &slots,
            };
            arm(&last, from, end, stack, first, above)
        }
        None => false,
    }
}

/// Executes the code up to an address as statements that each store one value, and gives the address behind the last one.
fn statements<L: Lanes>(
    code: &Code<L>,
    end: usize,
    least: u32,
    locals: &mut [Level],
    kept: &mut [Cell],
    stack: &mut [Level],
    first: &mut [Cell],
    above: &mut [Cell],
) -> Option<usize>
    requires lends { L.lends code.now.lanes.now }
    requires within { end ≤ length code.now.instrs.now }
    ensures { IfSome result (λ from. (place : ℕ) → place < length first.old
        → Proceeds code.now.instrs.now (stored_in least locals.old kept.old (length first.old) place (L.known code.now.lanes.now place)) 0
        (stored_in least locals.new kept.new (length first.old) place (L.known code.now.lanes.now place)) from) }
{
    let mut from = 0;
    for at in 0..end {
        match statement(code, from, at, least, locals, kept, stack, first, above) {
            Some(next) => from = next,
            None => return None,
        }
    }
    Some(from)
}

/// Executes the statement that ends at an address, where one does, and gives the address at which the next one begins.
fn statement<L: Lanes>(
    code: &Code<L>,
    from: usize,
    at: usize,
    least: u32,
    locals: &mut [Level],
    kept: &mut [Cell],
    stack: &mut [Level],
    first: &mut [Cell],
    above: &mut [Cell],
) -> Option<usize>
    requires lends { L.lends code.now.lanes.now }
    requires within { at < length code.now.instrs.now }
    ensures { IfSome result (λ next. (place : ℕ) → place < length first.old
        → Proceeds code.now.instrs.now (stored_in least locals.old kept.old (length first.old) place (L.known code.now.lanes.now place)) from
        (stored_in least locals.new kept.new (length first.old) place (L.known code.now.lanes.now place)) next) }
{
    match instr_at(code.instrs, at) {
        Instr::Store(slot) => {
            if !store(
                code, from, at, *slot, least, locals, kept, stack, first, above,
            ) {
                return None;
            }
            Some(at + 1)
        }
        _ => Some(from),
    }
}

/// Executes the instructions from an address up to one that stores their value, and that one too.
fn store<L: Lanes>(
    code: &Code<L>,
    from: usize,
    at: usize,
    slot: u32,
    least: u32,
    locals: &mut [Level],
    kept: &mut [Cell],
    stack: &mut [Level],
    first: &mut [Cell],
    above: &mut [Cell],
) -> bool
    requires lends { L.lends code.now.lanes.now }
    requires found { slice_get code.now.instrs.now at ≡ Some (Store slot) }
    ensures { result ≡ true → (place : ℕ) → place < length first.old
        → Proceeds code.now.instrs.now (stored_in least locals.old kept.old (length first.old) place (L.known code.now.lanes.now place)) from
        (stored_in least locals.new kept.new (length first.old) place (L.known code.now.lanes.now place)) (at + 1) }
{
    if slot < least {
        return false;
    }
    let slots = Locals {
        lanes: code.lanes,
        least,
        levels: locals,
        rows: kept,
        block: first.len(),
    };
    if !is_known(&slots, slot, first.len()) {
        return false;
    }
    match value(code.instrs, &slots, from, at, stack, first, above) {
        Some(level) => keep(level, (slot - least) as usize, first, locals, kept),
        None => false,
    }
}

/// Whether it is known at so many places what a slot holds.
fn is_known<L: Lanes>(lanes: &L, slot: u32, block: usize) -> bool
    requires lends { L.lends lanes.now }
    ensures { result ≡ true → (place : ℕ) → place < block → IsSome ((L.known lanes.now place).slots slot) }
{
    lanes.number(slot).is_some() || lanes.column(slot).len() >= block
}

/// Executes the instructions from an address up to another one, which put one value on the stack, and gives its level: in the
/// first row, or as the slots were before any was stored.
fn value<L: Lanes>(
    instrs: &[Instr],
    slots: &Locals<L>,
    from: usize,
    to: usize,
    stack: &mut [Level],
    first: &mut [Cell],
    above: &mut [Cell],
) -> Option<Level>
    requires lends { L.lends slots.now.lanes.now }
    requires within { to ≤ length instrs.now }
    ensures { IfSome result (λ level. (place : ℕ) → place < length first.old → (rest : List ℤ)
        → Reaches instrs.now (stored_in slots.now.least slots.now.levels.now slots.now.rows.now slots.now.block place (L.known slots.now.lanes.now place)) from rest
        to (cell_of level first.new place (L.known slots.now.lanes.now place) ∷ rest)) }
{
    if !walk(
        &Code {
            instrs,
            lanes: slots,
        },
        from,
        to,
        stack,
        first,
        above,
    ) {
        return None;
    }
    match stack[0] {
        Level::Number(number) => Some(Level::Number(number)),
        Level::Column(slot) => match level_in(slots.least, slots.levels, slot) {
            Level::Here => settled(slots, Level::Column(slot), first),
            level => Some(level),
        },
        Level::Here => Some(Level::Here),
    }
}

/// Puts the cells of a level into a row, where it then stands.
fn settled<L: Lanes>(lanes: &L, level: Level, row: &mut [Cell]) -> Option<Level>
    requires lends { L.lends lanes.now }
    ensures { IfSome result (λ after. (after ≡ Here) × ((place : ℕ) → place < length row.old
        → cell_of level row.old place (L.known lanes.now place) ≡ slice_index_or row.new place (pos 0))) }
{
    if settle(lanes, level, row) {
        Some(Level::Here)
    } else {
        None
    }
}
