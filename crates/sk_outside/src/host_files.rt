//! The files of the system.
ghost use Rattle.std.specs.Prelude.{◌≡◌, ◌+◌, ◌<◌, ◌≤◌, ◌++◌, List, ℕ, length, IfOk, OnOk, vec_len};
ghost use Rattle.std.specs.Io.KnownBytes.{Consumes, IsAtEnd};
ghost use Rattle.sk_outside.specs.Faults.{no_faults};

use crate::fault_log::FaultLog;
use crate::host_stream::write_whole;
use crate::{FileAnswer, Files, WriteAnswer};
use std::alloc::{AllocError, Global};
use std::fs::File;
use std::io;
use std::io::Read;
use std::marker::Model;
use std::rt::Files as FileSystem;

/// How many bytes a read asks for, unless fewer are wanted.
const PIECE: usize = 64 * 1024;

/// The files of the system, which tell nothing of their contents. A name is a path.
///
/// A directory, and a file that may not be read or written, fails like an absent one.
#[derive(Drop)]
pub struct HostFiles<'a, R> {
    rt: &'a R,
    reads: FaultLog,
    writes: FaultLog,
}

impl<'a, R> Model for HostFiles<'a, R> {
    ghost use Rattle.sk_outside.specs.HostFaults.{HostFaults};

    ghost Value = { HostFaults };

    ghost view = { λ files. record { reads = files.reads; writes = files.writes } };
}

impl<'a, R: FileSystem> HostFiles<'a, R> {
    /// The files that this runtime reaches.
    pub fn new(rt: &'a R) -> Self
        ensures { result ≡ record { reads = no_faults; writes = no_faults } }
    {
        HostFiles {
            rt,
            reads: FaultLog::new(),
            writes: FaultLog::new(),
        }
    }
}

impl<R: FileSystem> Files for HostFiles<'_, R> {
    ghost use Rattle.sk_outside.specs.HostFaults.{untold};

    ghost holds = { untold };

    fn read_all(&mut self, alloc: Global, name: &str, limit: usize) -> Result<Vec<u8>, FileAnswer> {
        let kept = String::from_str(alloc, name)?;
        match read_file(self.rt, alloc, name, limit) {
            Err(FileAnswer::Failed) => {
                self.reads.note(kept);
                Err(FileAnswer::Failed)
            }
            answer => answer,
        }
    }

    fn write_all(&mut self, alloc: Global, name: &str, bytes: &[u8]) -> Result<(), WriteAnswer> {
        let kept = String::from_str(alloc, name)?;
        match write_file(self.rt, name, bytes) {
            Ok(()) => Ok(()),
            Err(_) => {
                self.writes.note(kept);
                Err(WriteAnswer::Failed)
            }
        }
    }
}

/// The whole of a file, unless it is longer than the limit.
fn read_file<R: FileSystem>(
    rt: &R,
    alloc: Global,
    name: &str,
    limit: usize,
) -> Result<Vec<u8>, FileAnswer>
    ensures { IfOk result (λ bytes. vec_len bytes ≤ limit) }
{
    let mut file = File::open(rt, name).map_err(|_| FileAnswer::Failed)?;
    let bytes = read_up_to(alloc, &mut file, limit.saturating_add(1))?;
    if bytes.len() > limit {
        return Err(FileAnswer::Long);
    }
    Ok(bytes)
}

/// Reads to the end, or until there are `most` bytes.
fn read_up_to<F: Read>(alloc: Global, file: &mut F, most: usize) -> Result<Vec<u8>, FileAnswer>
    ensures within { IfOk result (λ bytes. vec_len bytes ≤ most) }
    ensures bytes { IfOk result (λ bytes.
        Consumes (F.remaining file.old) (F.remaining file.new) bytes.items) }
    ensures whole { IfOk result (λ bytes. vec_len bytes < most → IsAtEnd (F.remaining file.new)) }
{
    let mut piece = zeros(alloc, PIECE)?;
    let mut bytes = Vec::new(alloc);
    'pieces: while bytes.len() < most {
        let wanted = most - bytes.len();
        if read_piece(file, &mut piece, wanted, &mut bytes)? == 0 {
            return Ok(bytes);
        }
    }
    Ok(bytes)
}

/// One read of at most `wanted` bytes, which go to the end of `bytes`. It answers how many they are.
fn read_piece<F: Read>(
    file: &mut F,
    piece: &mut [u8],
    wanted: usize,
    bytes: &mut Vec<u8>,
) -> Result<usize, FileAnswer>
    requires room { 0 < length piece.old }
    requires some { 0 < wanted }
    ensures within { IfOk result (λ taken. taken ≤ wanted) }
    ensures grows { IfOk result (λ taken. vec_len bytes.new ≡ vec_len bytes.old + taken) }
    ensures bytes { OnOk result ((taken : List ℕ) × (bytes.new.items ≡ bytes.old.items ++ taken)
        × Consumes (F.remaining file.old) (F.remaining file.new) taken) }
    ensures end { IfOk result (λ taken. taken ≡ 0 → IsAtEnd (F.remaining file.new)) }
{
    let wanted = piece.len().min(wanted);
    let taken = match file.read(&mut piece[..wanted]) {
        Ok(taken) => taken,
        Err(_) => return Err(FileAnswer::Failed),
    };
    bytes.extend_from_slice(&piece[..taken])?;
    Ok(taken)
}

/// So many bytes, all 0.
fn zeros(alloc: Global, len: usize) -> Result<Vec<u8>, AllocError>
    ensures { IfOk result (λ bytes. vec_len bytes ≡ len) }
{
    vec![in alloc; 0u8; len]
}

/// Gives a file these contents.
fn write_file<R: FileSystem>(rt: &R, name: &str, bytes: &[u8]) -> io::Result<()> {
    let mut file = File::create(rt, name)?;
    write_whole(&mut file, bytes)
}
