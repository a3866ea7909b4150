//! What one instruction does for a block of places.
ghost use Rattle.std.specs.Prelude.{◌≡◌, ℕ, ℤ, Some, Ok, IfSome, ◌<◌, ◌≤◌, ◌+◌, ◌-◌, ◌*◌, suc, length, pos, true, List, ◌∷◌, ◌++◌, slice_set, slice_index_or};
ghost use Rattle.sk_isa.specs.declared.code.Instr.{Instr as Instructions};
ghost use Rattle.sk_columns.specs.Blocks.{IsDone, IsPushed, TakesOne, TakesTwo};
ghost use Rattle.sk_columns.specs.Cells.{cell_of, made_by};

use crate::combine::{Action, combine};
use crate::lanes::Lanes;
use crate::level::Level;
use crate::loops::count;
use sk_base::Cell;
use sk_isa::Instr;
use sk_names::Name;

/// Executes an instruction for a block of places, with so many values on the stack, and gives how many there are then. It
/// gives nothing where it cannot be done. The row of the first level stands alone, and those of the others above it.
pub fn step<L: Lanes>(
    instr: &Instr,
    lanes: &L,
    height: usize,
    levels: &mut [Level],
    first: &mut [Cell],
    above: &mut [Cell],
) -> Option<usize>
    requires lends { L.lends lanes.now }
    requires inside { height ≤ length levels.old }
    ensures { IfSome result (λ after. IsDone instr.now (L.known lanes.now) (length first.old) height levels.old (first.old ++ above.old) after levels.new (first.new ++ above.new)) }
{
    match instr {
        Instr::Push(number) => push(Level::Number(*number), height, levels),
        Instr::Load(slot) => load(lanes, *slot, first.len(), height, levels),
        Instr::Field(slot, name) => field(lanes, *slot, name, height, levels, first, above),
        Instr::Binary(op, ty) => {
            binary(
                Action::Binary(*op, *ty),
                lanes,
                height,
                levels,
                first,
                above,
            )
        }
        Instr::Neg(ty) => unary(Action::Negate(*ty), lanes, height, levels, first, above),
        Instr::Inv(_) => unary(Action::Invert, lanes, height, levels, first, above),
        Instr::Not => unary(Action::Deny, lanes, height, levels, first, above),
        Instr::Wrap => unary(Action::Wrap, lanes, height, levels, first, above),
        _ => None,
    }
}

/// One more level, where there is room for it.
fn push(level: Level, height: usize, levels: &mut [Level]) -> Option<usize>
    ensures { IfSome result (λ after. IsPushed level height levels.old after levels.new) }
{
    if height >= levels.len() {
        return None;
    }
    levels[height] = level;
    Some(height + 1)
}

/// One more level: a slot, where its numbers are known at all places of the block.
fn load<L: Lanes>(
    lanes: &L,
    slot: u32,
    block: usize,
    height: usize,
    levels: &mut [Level],
) -> Option<usize>
    requires lends { L.lends lanes.now }
    ensures { (rows : List ℤ) → IfSome result (λ after. IsDone (Instr.Load slot) (L.known lanes.now) block height levels.old rows after levels.new rows) }
{
    if let Some(number) = lanes.number(slot) {
        return push(Level::Number(number), height, levels);
    }
    if lanes.column(slot).len() < block {
        return None;
    }
    push(Level::Column(slot), height, levels)
}

/// One more level: a field of an argument, where it is known to have consecutive numbers.
fn field<L: Lanes>(
    lanes: &L,
    slot: u32,
    name: &Name,
    height: usize,
    levels: &mut [Level],
    first: &mut [Cell],
    above: &mut [Cell],
) -> Option<usize>
    requires lends { L.lends lanes.now }
    ensures { IfSome result (λ after. IsDone (Instr.Field slot name.now) (L.known lanes.now) (length first.old) height levels.old (first.old ++ above.old) after levels.new (first.new ++ above.new)) }
{
    let from = lanes.first(slot, name)?;
    if height >= levels.len() || !count_at(from, height, first, above) {
        return None;
    }
    levels[height] = Level::Here;
    Some(height + 1)
}

/// Puts consecutive numbers into the row of this number.
fn count_at(from: u32, row: usize, first: &mut [Cell], above: &mut [Cell]) -> bool
    ensures below { result ≡ true → (index : ℕ) → index < row * length first.old → slice_index_or (first.new ++ above.new) index (pos 0) ≡ slice_index_or (first.old ++ above.old) index (pos 0) }
    ensures here { result ≡ true → (place : ℕ) → place < length first.old → slice_index_or (first.new ++ above.new) (row * length first.old + place) (pos 0) ≡ pos (from + place) }
{
    if row == 0 {
        count(from, first)
    } else {
        count_above(from, first.len(), row - 1, above)
    }
}

/// The same in rows above the first one, where they are counted from 0.
fn count_above(from: u32, block: usize, row: usize, rows: &mut [Cell]) -> bool
    ensures below { result ≡ true → (index : ℕ) → index < row * block → slice_index_or rows.new index (pos 0) ≡ slice_index_or rows.old index (pos 0) }
    ensures here { result ≡ true → (place : ℕ) → place < block → slice_index_or rows.new (row * block + place) (pos 0) ≡ pos (from + place) }
{
    let Some(base) = row.checked_mul(block) else {
        return false;
    };
    if rows.len() < base || rows.len() - base < block {
        return false;
    }
    let (_, rest) = rows.split_at_mut(base);
    let (to, _) = rest.split_at_mut(block);
    count(from, to)
}

/// One level in place of the two topmost ones.
fn binary<L: Lanes>(
    action: Action,
    lanes: &L,
    height: usize,
    levels: &mut [Level],
    first: &mut [Cell],
    above: &mut [Cell],
) -> Option<usize>
    requires lends { L.lends lanes.now }
    requires inside { height ≤ length levels.old }
    ensures { (instr : Instructions) → TakesTwo instr action
        → IfSome result (λ after. IsDone instr (L.known lanes.now) (length first.old) height levels.old (first.old ++ above.old) after levels.new (first.new ++ above.new)) }
{
    if height < 2 {
        return None;
    }
    let left = levels[height - 2];
    let right = levels[height - 1];
    if !combine_at(action, lanes, left, right, height - 2, first, above) {
        return None;
    }
    levels[height - 2] = Level::Here;
    Some(height - 1)
}

/// Another level in place of the topmost one.
fn unary<L: Lanes>(
    action: Action,
    lanes: &L,
    height: usize,
    levels: &mut [Level],
    first: &mut [Cell],
    above: &mut [Cell],
) -> Option<usize>
    requires lends { L.lends lanes.now }
    requires inside { height ≤ length levels.old }
    ensures { (instr : Instructions) → TakesOne instr action
        → IfSome result (λ after. IsDone instr (L.known lanes.now) (length first.old) height levels.old (first.old ++ above.old) after levels.new (first.new ++ above.new)) }
{
    if height < 1 {
        return None;
    }
    let level = levels[height - 1];
    if !combine_at(
        action,
        lanes,
        level,
        Level::Number(0),
        height - 1,
        first,
        above,
    ) {
        return None;
    }
    levels[height - 1] = Level::Here;
    Some(height)
}

/// Puts what is made of two levels into the row of this number, which the left one has; the right one has the next.
fn combine_at<L: Lanes>(
    action: Action,
    lanes: &L,
    left: Level,
    right: Level,
    row: usize,
    first: &mut [Cell],
    above: &mut [Cell],
) -> bool
    requires lends { L.lends lanes.now }
    ensures below { result ≡ true → (index : ℕ) → index < row * length first.old → slice_index_or (first.new ++ above.new) index (pos 0) ≡ slice_index_or (first.old ++ above.old) index (pos 0) }
    ensures here { result ≡ true → (place : ℕ) → place < length first.old
        → made_by action (cell_of left (first.old ++ above.old) (row * length first.old + place) (L.known lanes.now place)) (cell_of right (first.old ++ above.old) (row * length first.old + length first.old + place) (L.known lanes.now place))
        ≡ Ok (slice_index_or (first.new ++ above.new) (row * length first.old + place) (pos 0)) }
{
    if row == 0 {
        combine(action, lanes, left, right, first, above)
    } else {
        combine_above(action, lanes, left, right, first.len(), row - 1, above)
    }
}

/// The same in rows above the first one, where they are counted from 0.
fn combine_above<L: Lanes>(
    action: Action,
    lanes: &L,
    left: Level,
    right: Level,
    block: usize,
    row: usize,
    rows: &mut [Cell],
) -> bool
    requires lends { L.lends lanes.now }
    ensures below { result ≡ true → (index : ℕ) → index < row * block → slice_index_or rows.new index (pos 0) ≡ slice_index_or rows.old index (pos 0) }
    ensures here { result ≡ true → (place : ℕ) → place < block
        → made_by action (cell_of left rows.old (row * block + place) (L.known lanes.now place)) (cell_of right rows.old (row * block + block + place) (L.known lanes.now place))
        ≡ Ok (slice_index_or rows.new (row * block + place) (pos 0)) }
{
    let Some(base) = row.checked_mul(block) else {
        return false;
    };
    if rows.len() < base || rows.len() - base < block {
        return false;
    }
    let (_, from) = rows.split_at_mut(base);
    let (to, above) = from.split_at_mut(block);
    combine(action, lanes, left, right, to, above)
}
