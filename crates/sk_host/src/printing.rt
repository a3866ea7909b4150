//! What main prints.
ghost use Rattle.std.specs.Fmt.{signed_decimal};
ghost use Rattle.sk_host.specs.Prints.{IsPrinted};

use crate::outcome::Outcome;
use itoa::Buffer;
use sk_base::Cell;
use sk_outside::{Sink, WriteAnswer};
use std::alloc::Global;

/// Prints bytes.
pub fn print<O: Sink>(alloc: Global, bytes: &[u8], out: &mut O) -> Result<(), Outcome>
    ensures { IsPrinted bytes.now (O.holds out.old) (O.holds out.new) result }
{
    match out.put(alloc, bytes) {
        Ok(()) => Ok(()),
        Err(WriteAnswer::Failed) => Err(Outcome::SinkFault),
        Err(WriteAnswer::Memory) => Err(Outcome::Memory),
    }
}

/// Prints a number in decimal digits.
pub fn print_number<O: Sink>(alloc: Global, value: Cell, out: &mut O) -> Result<(), Outcome>
    ensures { IsPrinted (signed_decimal value) (O.holds out.old) (O.holds out.new) result }
{
    let mut buffer = Buffer::new();
    print(alloc, buffer.format(value).as_bytes(), out)
}
