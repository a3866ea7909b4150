//! The value of a piece of code for a block of places, with choices between values.
ghost use Rattle.std.specs.Prelude.{◌≡◌, ℕ, ℤ, Some, IfSome, ◌<◌, ◌≤◌, ◌+◌, ◌*◌, List, ◌∷◌, ◌++◌, length, pos, true, slice_get, slice_index_or};
ghost use Rattle.std.specs.List.{list_all};
ghost use Rattle.sk_isa.specs.declared.code.Instr.TheVariants.{Zero};
ghost use Rattle.sk_columns.specs.Blocks.{IsChosen, Reaches, is_straight};
ghost use Rattle.sk_columns.specs.Cells.{cell_of};
ghost use Rattle.sk_columns.specs.declared.level.Level.TheVariants.{Here};

use crate::apply::settle;
use crate::lanes::Lanes;
use crate::level::Level;
use crate::loops::select;
use crate::step::step;
use sk_base::Cell;
use sk_isa::Instr;

/// A code, and the slots that it is evaluated over.
#[derive(Drop)]
pub struct Code<'a, L> {
    pub instrs: &'a [Instr],
    pub lanes: &'a L,
}

/// The address of a test, that of the piece of code for the places where it fails, and that behind both pieces.
#[derive(Clone, Copy)]
struct Choice {
    at: usize,
    other: usize,
    end: usize,
}

/// Puts the value that instructions from an address up to another one leave into a row. Above it are rows for the other
/// values.
#[cycle(arm)]
pub fn arm<L: Lanes>(
    code: &Code<L>,
    from: usize,
    to: usize,
    levels: &mut [Level],
    row: &mut [Cell],
    above: &mut [Cell],
) -> bool
    requires lends { L.lends code.now.lanes.now }
    requires within { to ≤ length code.now.instrs.now }
    ensures { result ≡ true → (place : ℕ) → place < length row.old → (rest : List ℤ)
        → Reaches code.now.instrs.now (L.known code.now.lanes.now place) from rest to (slice_index_or row.new place (pos 0) ∷ rest) }
{
    walk(code, from, to, levels, row, above) && settle(code.lanes, levels[0], row)
}

/// Executes the instructions from an address up to another one, which put one value on the stack: the first of these levels,
/// whose row stands alone. A jump leads to the end alone, as it does behind the first side of a choice, so that nearly no
/// instruction is executed for both sides.
#[cycle(arm)]
pub fn walk<L: Lanes>(
    code: &Code<L>,
    from: usize,
    to: usize,
    levels: &mut [Level],
    first: &mut [Cell],
    above: &mut [Cell],
) -> bool
    requires lends { L.lends code.now.lanes.now }
    requires within { to ≤ length code.now.instrs.now }
    ensures inside { result ≡ true → 0 < length levels.old }
    ensures reaches { result ≡ true → (place : ℕ) → place < length first.old → (rest : List ℤ)
        → Reaches code.now.instrs.now (L.known code.now.lanes.now place) from rest to (cell_of (slice_index_or levels.new 0 Here) first.new place (L.known code.now.lanes.now place) ∷ rest) }
{
    let mut at = from;
    let mut height = 0;
    while at < to {
        match instr_at(code.instrs, at) {
            Instr::Jump(target) => {
                let target = *target as usize;
                if target != to {
                    return false;
                }
                at = target;
            }
            Instr::Zero(other) => {
                let other = *other as usize;
                match choose(code, at, other, to, height, levels, first, above) {
                    Some(end) => at = end,
                    None => return false,
                }
            }
            instr => match step(instr, code.lanes, height, levels, first, above) {
                Some(after) => {
                    height = after;
                    at += 1;
                }
                None => return false,
            },
        }
    }
    at == to && height == 1
}

/// Executes a test at an address and the two pieces of code behind it, of which it chooses one at each place. Gives the
/// address behind them.
#[cycle(arm)]
fn choose<L: Lanes>(
    code: &Code<L>,
    at: usize,
    other: usize,
    to: usize,
    height: usize,
    levels: &mut [Level],
    first: &mut [Cell],
    above: &mut [Cell],
) -> Option<usize>
    requires lends { L.lends code.now.lanes.now }
    requires within { to ≤ length code.now.instrs.now }
    requires found { slice_get code.now.instrs.now at ≡ Some (Zero other) }
    requires inside { height ≤ length levels.old }
    ensures ahead { IfSome result (λ end. (at < end) × (end ≤ to)) }
    ensures chosen { IfSome result (λ end. IsChosen code.now.instrs.now (L.known code.now.lanes.now) (length first.old) at height levels.old (first.old ++ above.old) end levels.new (first.new ++ above.new)) }
{
    let end = behind_choice(code.instrs, at, other, to)?;
    if height == 0 {
        return None;
    }
    let level = levels[height - 1];
    let (_, fresh) = levels.split_at_mut(height);
    if !choose_at(
        code,
        Choice { at, other, end },
        level,
        height - 1,
        fresh,
        first,
        above,
    ) {
        return None;
    }
    levels[height - 1] = Level::Here;
    Some(end)
}

/// Where the code goes on behind a test and the two pieces that it chooses from: the first one ends with a jump there, in
/// front of the other one.
fn behind_choice(instrs: &[Instr], at: usize, other: usize, to: usize) -> Option<usize>
    requires { to ≤ length instrs.now }
    ensures { IfSome result (λ end. (at < other) × (other ≤ end) × (end ≤ to)) }
{
    if other <= at || other > to {
        return None;
    }
    match instr_at(instrs, other - 1) {
        Instr::Jump(end) => {
            let end = *end as usize;
            if other <= end && end <= to {
                Some(end)
            } else {
                None
            }
        }
        _ => None,
    }
}

/// Puts the chosen value into the row of this number, which the test has.
#[cycle(arm)]
fn choose_at<L: Lanes>(
    code: &Code<L>,
    choice: Choice,
    test: Level,
    row: usize,
    levels: &mut [Level],
    first: &mut [Cell],
    above: &mut [Cell],
) -> bool
    requires lends { L.lends code.now.lanes.now }
    requires found { slice_get code.now.instrs.now choice.at ≡ Some (Zero choice.other) }
    requires ahead { choice.at < choice.other }
    requires behind { choice.other ≤ choice.end }
    requires within { choice.end ≤ length code.now.instrs.now }
    ensures below { result ≡ true → (index : ℕ) → index < row * length first.old → slice_index_or (first.new ++ above.new) index (pos 0) ≡ slice_index_or (first.old ++ above.old) index (pos 0) }
    ensures here { result ≡ true → (place : ℕ) → place < length first.old → (rest : List ℤ)
        → Reaches code.now.instrs.now (L.known code.now.lanes.now place) choice.at (cell_of test (first.old ++ above.old) (row * length first.old + place) (L.known code.now.lanes.now place) ∷ rest)
        choice.end (slice_index_or (first.new ++ above.new) (row * length first.old + place) (pos 0) ∷ rest) }
{
    if row == 0 {
        choose_in(code, choice, test, levels, first, above)
    } else {
        choose_above(code, choice, test, first.len(), row - 1, levels, above)
    }
}

/// The same in rows above the first one, where they are counted from 0.
#[cycle(arm)]
fn choose_above<L: Lanes>(
    code: &Code<L>,
    choice: Choice,
    test: Level,
    block: usize,
    row: usize,
    levels: &mut [Level],
    rows: &mut [Cell],
) -> bool
    requires lends { L.lends code.now.lanes.now }
    requires found { slice_get code.now.instrs.now choice.at ≡ Some (Zero choice.other) }
    requires ahead { choice.at < choice.other }
    requires behind { choice.other ≤ choice.end }
    requires within { choice.end ≤ length code.now.instrs.now }
    ensures below { result ≡ true → (index : ℕ) → index < row * block → slice_index_or rows.new index (pos 0) ≡ slice_index_or rows.old index (pos 0) }
    ensures here { result ≡ true → (place : ℕ) → place < block → (rest : List ℤ)
        → Reaches code.now.instrs.now (L.known code.now.lanes.now place) choice.at (cell_of test rows.old (row * block + place) (L.known code.now.lanes.now place) ∷ rest)
        choice.end (slice_index_or rows.new (row * block + place) (pos 0) ∷ rest) }
{
    let Some(base) = row.checked_mul(block) else {
        return false;
    };
    if rows.len() < base || rows.len() - base < block {
        return false;
    }
    let (_, from) = rows.split_at_mut(base);
    let (to, above) = from.split_at_mut(block);
    choose_in(code, choice, test, levels, to, above)
}

/// Puts the chosen value into a row. The two next rows above it are for the values to choose from.
#[cycle(arm)]
fn choose_in<L: Lanes>(
    code: &Code<L>,
    choice: Choice,
    test: Level,
    levels: &mut [Level],
    to: &mut [Cell],
    above: &mut [Cell],
) -> bool
    requires lends { L.lends code.now.lanes.now }
    requires found { slice_get code.now.instrs.now choice.at ≡ Some (Zero choice.other) }
    requires ahead { choice.at < choice.other }
    requires behind { choice.other ≤ choice.end }
    requires within { choice.end ≤ length code.now.instrs.now }
    ensures { result ≡ true → (place : ℕ) → place < length to.old → (rest : List ℤ)
        → Reaches code.now.instrs.now (L.known code.now.lanes.now place) choice.at (cell_of test to.old place (L.known code.now.lanes.now place) ∷ rest)
        choice.end (slice_index_or to.new place (pos 0) ∷ rest) }
{
    let block = to.len();
    if above.len() < block || above.len() - block < block {
        return false;
    }
    let (one, higher) = above.split_at_mut(block);
    if !arm(code, choice.at + 1, choice.end, levels, one, higher) {
        return false;
    }
    let (two, highest) = higher.split_at_mut(block);
    if !arm(code, choice.other, choice.end, levels, two, highest) || !settle(code.lanes, test, to) {
        return false;
    }
    select(to, one, two);
    true
}

/// Whether a code has no instructions but those that can be executed for a block.
pub fn is_straight(instrs: &[Instr]) -> bool
    ensures { result ≡ list_all is_straight instrs.now }
{
    instrs.iter().all(is_straight_instr)
}

/// Whether an instruction can be executed for a block.
fn is_straight_instr(instr: &Instr) -> bool
    ensures { result ≡ is_straight instr.now }
{
    matches!(
        instr,
        Instr::Push(_)
            | Instr::Load(_)
            | Instr::Store(_)
            | Instr::Field(_, _)
            | Instr::Neg(_)
            | Instr::Inv(_)
            | Instr::Not
            | Instr::Wrap
            | Instr::Binary(_, _)
            | Instr::Jump(_)
            | Instr::Zero(_)
            | Instr::Ret
    )
}

/// The instruction at an address.
#[inline]
pub fn instr_at(instrs: &[Instr], at: usize) -> &Instr
    requires { at < length instrs.now }
    ensures { slice_get instrs.now at ≡ Some result.now }
{
    &instrs[at]
}
