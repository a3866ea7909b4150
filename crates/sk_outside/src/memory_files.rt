//! Files in memory.
ghost use Rattle.std.specs.Prelude.{◌≡◌, ◌≢◌, List, ℕ, Some, IsTrue, IsErr, IsErrOf, OnOk, OnErr, string_bytes};
ghost use Rattle.std.specs.Option.{option_copied};
ghost use Rattle.std.specs.List.{position};
ghost use Rattle.std.specs.Str.{bytes_eq};
ghost use Rattle.sk_outside.specs.Faults.{no_faults, raised};
ghost use Rattle.sk_outside.specs.MemoryFiles.{listed, contents_of, names_differ, within_limit, Reads};

use crate::fault_log::FaultLog;
use crate::{FileAnswer, Files, WriteAnswer};
use std::alloc::{AllocError, Global};
use std::marker::Model;

/// Files in memory, which tell their contents, and calls that fail on order.
#[derive(Drop)]
pub struct MemFiles {
    alloc: Global,
    files: Vec<(String, Vec<u8>)>,
    failing: Vec<u32>,
    calls: u64,
    reads: FaultLog,
    writes: FaultLog,
}

impl Model for MemFiles {
    ghost use Rattle.sk_outside.specs.MemoryFiles.{MemoryFiles, listed};

    ghost Value = { MemoryFiles };

    ghost view = { λ memory. record {
      files = listed memory.files.items;
      failing = memory.failing.items;
      calls = memory.calls;
      reads = memory.reads;
      writes = memory.writes;
    } };
}

impl MemFiles {
    /// Files with these names and bytes. Reads and writes are counted together from 0, and the calls whose numbers
    /// are in `failing` fail.
    pub fn new(alloc: Global, files: Vec<(String, Vec<u8>)>, failing: Vec<u32>) -> MemFiles
        requires { IsTrue (names_differ (listed files.items)) }
        ensures { result ≡ record {
          files = listed files.items;
          failing = failing.items;
          calls = 0;
          reads = no_faults;
          writes = no_faults;
        } }
    {
        MemFiles {
            alloc,
            files,
            failing,
            calls: 0,
            reads: FaultLog::new(),
            writes: FaultLog::new(),
        }
    }

    /// The bytes of the named file, or `None` where there is none.
    pub fn contents(&self, name: &str) -> Option<&[u8]>
        ensures { option_copied result ≡ contents_of self.now.files name.now }
    {
        let place = place_of(&self.files, name)?;
        Some(&self.files[place].1)
    }
}

impl MemFiles {
    ghost use Rattle.sk_outside.specs.MemoryFiles.{is_failing};

    /// Counts a call, and says whether it is one of those that fail.
    fn next_call_fails(&mut self) -> bool
        ensures answer { result ≡ is_failing self.old }
        ensures after { self.new ≡ record self.old { calls = raised self.old.calls } }
    {
        let call = self.calls;
        self.calls = call.saturating_add(1);
        self.failing.iter().any(|number| u64::from(*number) == call)
    }
}

impl Files for MemFiles {
    ghost use Rattle.sk_outside.specs.MemoryFiles.{holding_of, is_failing, read_answer, reads_after, writes_after, Reads};

    ghost holds = { holding_of };

    fn read_all(&mut self, alloc: Global, name: &str, limit: usize) -> Result<Vec<u8>, FileAnswer>
        ensures answer { Reads (read_answer self.old name.now limit) result }
        ensures after { self.new ≡ record self.old {
          calls = raised self.old.calls;
          reads = reads_after result name.now self.old.reads;
        } }
    {
        let fails = self.next_call_fails();
        let kept = String::from_str(self.alloc, name)?;
        match self.contents(name) {
            Some(bytes) if !fails => within_limit(alloc, bytes, limit),
            _ => {
                self.reads.note(kept);
                Err(FileAnswer::Failed)
            }
        }
    }

    fn write_all(&mut self, _alloc: Global, name: &str, bytes: &[u8]) -> Result<(), WriteAnswer>
        ensures failed { IsTrue (is_failing self.old) → IsErr result }
        ensures only_failing { IsErrOf result WriteAnswer.Failed → IsTrue (is_failing self.old) }
        ensures written { OnOk result (contents_of self.new.files name.now ≡ Some bytes.now) }
        ensures others { (other : List ℕ) → other ≢ name.now →
            contents_of self.new.files other ≡ contents_of self.old.files other }
        ensures kept { OnErr result (self.new.files ≡ self.old.files) }
        ensures after { self.new ≡ record self.old {
          files = self.new.files;
          calls = raised self.old.calls;
          writes = writes_after result name.now self.old.writes;
        } }
    {
        let fails = self.next_call_fails();
        let name = String::from_str(self.alloc, name)?;
        if fails {
            self.writes.note(name);
            return Err(WriteAnswer::Failed);
        }
        let bytes = bytes.to_vec(self.alloc)?;
        store(&mut self.files, name, bytes)?;
        Ok(())
    }
}

/// A copy of the bytes, where they are no more than the limit.
fn within_limit(alloc: Global, bytes: &[u8], limit: usize) -> Result<Vec<u8>, FileAnswer>
    ensures { Reads (within_limit (Some bytes.now) limit) result }
{
    if bytes.len() > limit {
        return Err(FileAnswer::Long);
    }
    Ok(bytes.to_vec(alloc)?)
}

/// The place of the first file with the name.
fn place_of(files: &[(String, Vec<u8>)], name: &str) -> Option<usize>
    ensures { result ≡ position (λ file. bytes_eq (string_bytes file.0) name.now) files.now }
{
    files.iter().position(|file| file.0.as_str() == name)
}

/// Puts the bytes under the name, in the place of what stands there.
fn store(files: &mut Vec<(String, Vec<u8>)>, name: String, bytes: Vec<u8>) -> Result<(), AllocError>
    ensures stored { OnOk result (contents_of (listed files.new.items) (string_bytes name) ≡ Some bytes.items) }
    ensures others { (other : List ℕ) → other ≢ string_bytes name →
        contents_of (listed files.new.items) other ≡ contents_of (listed files.old.items) other }
    ensures kept { OnErr result (files.new.items ≡ files.old.items) }
{
    match place_of(files, &name) {
        Some(place) => files[place].1 = bytes,
        None => files.push((name, bytes))?,
    }
    Ok(())
}

/// Whether no two of the files have one name.
pub fn names_differ(files: &[(String, Vec<u8>)]) -> bool
    ensures { result ≡ names_differ (listed files.now) }
{
    match files {
        [] => true,
        [file, others @ ..] => place_of(others, &file.0).is_none() && names_differ(others),
    }
}
