//! A run over one file and streams in memory, and what it left behind.
use sk_cli::skepu;
use sk_outside::{MemFiles, MemSink};
use std::alloc::{AllocError, Global};
use std::process::Abort;

/// The words that run the file.
pub const RUN: &[&str] = &["run", "prog"];

/// What fails in a run.
#[derive(Clone, Copy, Debug)]
pub struct Faults {
    /// Which call of the files fails, if one does; the first is 0.
    pub file_call: Option<u32>,
    /// How many bytes the output takes in all, where it has an end.
    pub out_room: Option<u32>,
    /// How many bytes the error stream takes in all, where it has an end.
    pub err_room: Option<u32>,
}

impl Faults {
    pub const NONE: Faults = Faults {
        file_call: None,
        out_room: None,
        err_room: None,
    };
}

/// What a run left behind.
#[derive(Drop)]
pub struct Ran {
    status: u8,
    out: MemSink,
    err: MemSink,
}

/// What a row wants of a run: its status, what it prints, and its line on the error stream.
#[derive(Clone, Copy, Debug)]
pub struct Wanted<'a> {
    pub status: u8,
    pub printed: &'a str,
    pub line: &'a str,
}

impl<'a> Wanted<'a> {
    /// A run to the end.
    pub fn ended(printed: &'a str) -> Self {
        Wanted {
            status: 0,
            printed,
            line: "",
        }
    }

    /// A run that prints nothing.
    pub fn silent(status: u8, line: &'a str) -> Self {
        Wanted {
            status,
            printed: "",
            line,
        }
    }
}

impl Ran {
    /// The run of these words, where the only file is `prog` with the bytes of the source.
    pub fn of(
        alloc: Global,
        words: &[&str],
        source: &[u8],
        faults: Faults,
    ) -> Result<Ran, AllocError> {
        let mut owned = Vec::new(alloc);
        for word in words {
            owned.push(String::from_str(alloc, word)?)?;
        }
        let file = (
            String::from_str(alloc, "prog")?,
            Vec::from_slice(alloc, source)?,
        );
        let mut failing = Vec::new(alloc);
        if let Some(call) = faults.file_call {
            failing.push(call)?;
        }
        let mut files = MemFiles::new(alloc, vec![in alloc; file]?, failing);
        let mut out = MemSink::new(alloc, faults.out_room);
        let mut err = MemSink::new(alloc, faults.err_room);
        let status = skepu(alloc, owned.as_slice(), &mut files, &mut out, &mut err);
        Ok(Ran { status, out, err })
    }

    /// The run left behind what is wanted. `row` is shown where it did not.
    pub fn expect(&self, rt: &impl Abort, wanted: Wanted<'_>, row: &str) {
        assert_eq!(rt; self.status, wanted.status, "the status of {row}");
        assert!(rt;
            self.out.bytes() == wanted.printed.as_bytes(),
            "what {row} prints: {:?}",
            self.out.bytes()
        );
        assert!(rt;
            self.err.bytes() == wanted.line.as_bytes(),
            "the line of {row}: {:?}",
            self.err.bytes()
        );
    }
}

/// Runs the source, with nothing that fails.
pub fn expect_run(
    rt: &impl Abort,
    alloc: Global,
    source: &[u8],
    wanted: Wanted<'_>,
    row: &str,
) -> Result<(), AllocError> {
    Ran::of(alloc, RUN, source, Faults::NONE)?.expect(rt, wanted, row);
    Ok(())
}

/// A program that prints 42.
pub fn prints_42() -> &'static str {
    "\
int twice(int value) { return value * 2; }
int main() {
auto doubler = skepu::Map(twice);
skepu::Vector<int> data(3, 21);
doubler(data, data);
std::cout << data(2) << std::endl;
return 0; }
"
}
