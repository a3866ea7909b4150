//! The slots of a code that stores some of them.
ghost use Rattle.std.specs.Prelude.{◌≡◌, ℕ, Some, ◌+◌, ◌*◌, ◌<◌, ◌≤◌, ◌^◌, length, pos, true, slice_get, slice_index_or};
ghost use Rattle.sk_columns.specs.Locals.{IsKept, level_in, stored_in};
ghost use Rattle.sk_columns.specs.declared.level.Level.TheVariants.{Column};

use crate::lanes::Lanes;
use crate::level::Level;
use sk_base::Cell;
use sk_isa::Instr;
use sk_names::Name;

/// So many slots from one on.
#[derive(Clone, Copy)]
pub struct Span {
    pub least: u32,
    pub count: usize,
}

/// Slots among which are all that a code stores to. Where it stores to none, there are none.
pub fn span_of(instrs: &[Instr]) -> Span
    ensures { result.least + result.count ≤ 2 ^ 32 }
{
    let mut least = u32::MAX;
    let mut behind = 0;
    for instr in instrs {
        if let Instr::Store(slot) = instr {
            least = least.min(*slot);
            behind = behind.max(*slot as usize + 1);
        }
    }
    Span {
        least,
        count: behind.saturating_sub(least as usize),
    }
}

/// How many levels a code needs for the slots that it stores to.
pub fn stored_count(instrs: &[Instr]) -> usize {
    span_of(instrs).count
}

/// Gives each slot from one on the level of a slot that was not stored.
pub fn begin(least: u32, levels: &mut [Level])
    requires { least + length levels.old ≤ 2 ^ 32 }
    ensures { (row : ℕ) → row < length levels.old → slice_get levels.new row ≡ Some (Column (least + row)) }
{
    for row in 0..levels.len() {
        levels[row] = Level::Column(least + row as u32);
    }
}

/// The slots at places one behind another, where those from one on have levels of their own: each in a row of its own, or what
/// another slot held before any was stored, or one number.
#[derive(Drop)]
pub struct Locals<'a, L> {
    /// What the slots held before.
    pub lanes: &'a L,
    pub least: u32,
    pub levels: &'a [Level],
    pub rows: &'a [Cell],
    /// How long a row is.
    pub block: usize,
}

impl<'a, L: Lanes> Lanes for Locals<'a, L> {
    ghost known = { λ locals place. stored_in locals.least locals.levels.now locals.rows.now locals.block place (L.known locals.lanes.now place) };

    ghost lends = { λ locals. L.lends locals.lanes.now };

    fn number(&self, slot: u32) -> Option<Cell> {
        match level_in(self.least, self.levels, slot) {
            Level::Here => None,
            Level::Column(other) => self.lanes.number(other),
            Level::Number(number) => Some(number),
        }
    }

    fn column(&self, slot: u32) -> &[Cell] {
        match level_in(self.least, self.levels, slot) {
            Level::Here => row_of(
                self.rows,
                slot.saturating_sub(self.least) as usize,
                self.block,
            ),
            Level::Column(other) => self.lanes.column(other),
            Level::Number(_) => &[],
        }
    }

    fn first(&self, slot: u32, name: &Name) -> Option<u32> {
        self.lanes.first(slot, name)
    }
}

/// The level of a slot. One that was not stored holds its own column.
pub fn level_in(least: u32, levels: &[Level], slot: u32) -> Level
    ensures { result ≡ level_in least levels.now slot }
{
    if slot < least {
        return Level::Column(slot);
    }
    match levels.get((slot - least) as usize) {
        Some(level) => *level,
        None => Level::Column(slot),
    }
}

/// A row of these, where there are as many.
fn row_of(rows: &[Cell], row: usize, block: usize) -> &[Cell]
    ensures { (place : ℕ) → place < length result.now → slice_get result.now place ≡ Some (slice_index_or rows.now (row * block + place) (pos 0)) }
{
    let Some(base) = row.checked_mul(block) else {
        return &[];
    };
    if rows.len() < base || rows.len() - base < block {
        return &[];
    }
    &rows[base..base + block]
}

/// Gives one of the levels another place to stand at, and puts the cells into its row where it stands there.
pub fn keep(
    level: Level,
    row: usize,
    cells: &[Cell],
    levels: &mut [Level],
    rows: &mut [Cell],
) -> bool
    ensures { result ≡ true → IsKept level row cells.now levels.old rows.old levels.new rows.new }
{
    if row >= levels.len() {
        return false;
    }
    levels[row] = level;
    match level {
        Level::Here => put_row(row, cells, rows),
        _ => true,
    }
}

/// Puts cells into the row of this number.
fn put_row(row: usize, cells: &[Cell], rows: &mut [Cell]) -> bool
    ensures here { result ≡ true → (place : ℕ) → place < length cells.now → slice_index_or rows.new (row * length cells.now + place) (pos 0) ≡ slice_index_or cells.now place (pos 0) }
    ensures below { result ≡ true → (index : ℕ) → index < row * length cells.now → slice_index_or rows.new index (pos 0) ≡ slice_index_or rows.old index (pos 0) }
    ensures above { result ≡ true → (index : ℕ) → row * length cells.now + length cells.now ≤ index → slice_index_or rows.new index (pos 0) ≡ slice_index_or rows.old index (pos 0) }
{
    let block = cells.len();
    let Some(base) = row.checked_mul(block) else {
        return false;
    };
    if rows.len() < base || rows.len() - base < block {
        return false;
    }
    let (_, from) = rows.split_at_mut(base);
    let (to, _) = from.split_at_mut(block);
    to.copy_from_slice(cells);
    true
}
