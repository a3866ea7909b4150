//! A directory whose steps are kept, as text.

use sk_coherence::Directory;
use sk_spaces::{Kept, Memory, Spaces, Step};
use std::alloc::Global;
use std::fmt::Write;

/// A directory over two ranks with eight cells each, which keeps its steps.
pub fn directory(alloc: Global) -> Result<Directory<Kept>, Memory> {
    let Ok(mut spaces) = Spaces::new(alloc, 8, 2, Kept::new(alloc)) else {
        return Err(Memory);
    };
    let first = Step::Memory {
        ranks: 2,
        capacity: 8,
        tile: 1024,
        lineage: 1024,
    };
    spaces.note(alloc, first)?;
    Ok(Directory::new(alloc, spaces))
}

/// Steps as text, each on a line.
pub fn shown(alloc: Global, steps: &[Step]) -> Result<String, Memory> {
    let mut out = String::new(alloc);
    for step in steps {
        if write!(out, "{step:?}\n").is_err() {
            return Err(Memory);
        }
    }
    Ok(out)
}
