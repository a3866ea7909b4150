//! What the program does with a source.
use sk_cli::skepu;
use sk_outside::{MemFiles, MemSink};
use sk_tables::{Answers, Row, characters};
use std::alloc::{AllocError, Global};

/// The answers of runs.
#[derive(Drop)]
pub struct Runs;

impl Answers for Runs {
    fn answer(&mut self, alloc: Global, _question: &str, row: &Row) -> Result<String, AllocError> {
        ran(alloc, row.whole.as_slice())
    }
}

/// The run of the file `prog` with these bytes.
fn ran(alloc: Global, source: &[u8]) -> Result<String, AllocError> {
    let file = (
        String::from_str(alloc, "prog")?,
        Vec::from_slice(alloc, source)?,
    );
    let words = vec![in alloc;
        String::from_str(alloc, "run")?,
        String::from_str(alloc, "prog")?,
    ]?;
    let mut files = MemFiles::new(alloc, vec![in alloc; file]?, Vec::new(alloc));
    let mut out = MemSink::new(alloc, None);
    let mut err = MemSink::new(alloc, None);
    let status = skepu(alloc, words.as_slice(), &mut files, &mut out, &mut err);
    let printed = characters(alloc, out.bytes())?;
    let line = characters(alloc, err.bytes())?;
    format!(in alloc; "{status} \"{printed}\" \"{line}\"")
}
