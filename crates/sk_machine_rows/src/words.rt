//! Code that no source gives yet.
use sk_base::{Op, Ty};
use sk_isa::{Code, Instr};
use sk_names::Text;
use sqlite_items::Items;
use std::alloc::{AllocError, Global};

/// A text of these bytes.
fn text(alloc: Global, bytes: &[u8]) -> Result<Text, AllocError> {
    Ok(Text::from_vec(Vec::from_slice(alloc, bytes)?))
}

/// Instructions of main, which no source gives yet, behind three that sources give.
pub fn code(alloc: Global) -> Result<Code, AllocError> {
    let mut instrs = Items::new(alloc);
    instrs.push(Instr::Load(0))?;
    instrs.push(Instr::Push(-7))?;
    instrs.push(Instr::Binary(Op::Add, Ty::Int))?;
    instrs.push(Instr::Zero(5))?;
    instrs.push(Instr::Take(1, 2, Ty::Long, text(alloc, b"a\"b")?))?;
    instrs.push(Instr::Text(text(alloc, b"\n")?))?;
    instrs.push(Instr::Do(2, Items::from_slice(alloc, &[0, 3, 1])?, 4))?;
    instrs.push(Instr::Get(0, Items::new(alloc), 0))?;
    Ok(Code {
        instrs,
        slots: 1,
        depth: 2,
    })
}
