//! Codes evaluated over two columns.
ghost use Rattle.std.specs.Prelude.{◌≡◌, ◌==◌, ◌+◌, nat_lt, if◌then◌else◌, Some, None, pos, slice_get};

use sk_base::Cell;
use sk_columns::{Lanes, Level, evaluate};
use sk_isa::Instr;
use sk_names::Name;
use std::alloc::{AllocError, Global};

/// Two slots with a column each, and 0 in all others. Every field of the argument in slot 9 counts from a number on.
#[derive(Drop)]
struct Columns<'a> {
    left: &'a [Cell],
    right: &'a [Cell],
    from: u32,
}

impl<'a> Lanes for Columns<'a> {
    ghost known = { λ columns place. record {
      slots = λ slot. if nat_lt slot 2 then slice_get (if slot == 0 then columns.left.now else columns.right.now) place else Some (pos 0);
      fields = λ slot name. if slot == 9 then Some (pos (columns.from + place)) else None;
    } };

    ghost lends = { λ columns. Unit {0} };

    fn number(&self, slot: u32) -> Option<Cell> {
        if slot < 2 { None } else { Some(0) }
    }

    fn column(&self, slot: u32) -> &[Cell] {
        match slot {
            0 => self.left,
            1 => self.right,
            _ => &[],
        }
    }

    fn first(&self, slot: u32, _name: &Name) -> Option<u32> {
        if slot == 9 { Some(self.from) } else { None }
    }
}

/// As many levels as the codes of these rows need at most, with choices and locals.
const LEVELS: usize = 9;

/// What a code gives for a block of two columns, where it is evaluated, and where fields count from a number on.
pub fn evaluated(
    alloc: Global,
    code: &[Instr],
    left: &[Cell],
    right: &[Cell],
    from: u32,
) -> Result<Option<Vec<Cell>>, AllocError> {
    let block = left.len();
    let mut out = vec![in alloc; 0; block]?;
    let mut levels = vec![in alloc; Level::Here; LEVELS]?;
    let Some(cells) = block.checked_mul(LEVELS - 1) else {
        return Ok(None);
    };
    let mut rows = vec![in alloc; 0; cells]?;
    let columns = Columns { left, right, from };
    if evaluate(code, &columns, &mut out, &mut levels, &mut rows) {
        Ok(Some(out))
    } else {
        Ok(None)
    }
}
