ghost use Rattle.std.specs.Prelude.{OnOk, IfOk};
ghost use Rattle.sk_main_emitter.specs.Written.{Writes, counting};

use crate::names::InMain;
use sk_base::Ty;
use sk_emitter::put;
use sk_isa::Instr;
use sk_tree::{Declared, Instance};
use sqlite_items::Items;
use std::alloc::AllocError;

/// The code of main as far as it is written, with the names in scope behind it, and the slots, the containers and the
/// instances so far.
#[derive(Drop)]
pub(crate) struct Writer<'a> {
    pub names: InMain<'a>,
    pub code: Vec<Instr>,
    pub slots: Vec<Ty>,
    pub containers: Items<Declared>,
    pub instances: Vec<&'a Instance>,
}

/// Appends the line of a statement, which is counted there.
pub(crate) fn count(writer: &mut Writer<'_>, line: u32) -> Result<(), AllocError>
    ensures { OnOk result (Writes (counting line) writer.old writer.new 0) }
{
    put(&mut writer.code, Instr::Count(line))?;
    Ok(())
}
