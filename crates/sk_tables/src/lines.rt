//! The lines that a program of rows reads.
use std::alloc::{AllocError, AllocGlobal, Global};
use std::io;

/// What tells of the lines of a table, one after another.
pub trait Teller {
    /// What is to be printed for a line, if anything is.
    fn tell(&mut self, alloc: Global, line: &str) -> Result<Option<String>, AllocError>;
}

/// Reads a table, and prints what is told of its lines.
pub fn print_told<R: Input + Print + AllocGlobal, T: Teller>(
    rt: &R,
    teller: &mut T,
) -> io::Result<()> {
    for line in rt.lines(rt.alloc()) {
        if let Some(text) = teller.tell(rt.alloc(), line?.as_str())? {
            println!(rt; "{text}")?;
        }
    }
    Ok(())
}
