//! The program `skepu`: makes the real files and streams, and ends with the status of the top call.
#![tactic(auto)]

use sk_cli::{WANT_OF_MEMORY, skepu};
use sk_outside::{HostErr, HostFiles, HostOut};
use std::alloc::AllocError;
use std::env;
use std::process::ExitCode;
use std::rt::Env;

fn main(rt: HostRuntime) -> ExitCode {
    let Ok(words) = words_of(&rt) else {
        return ExitCode::from(WANT_OF_MEMORY);
    };
    let mut files = HostFiles::new(&rt);
    let mut out = HostOut::new(rt.stdout());
    let mut err = HostErr::new(rt.stderr());
    ExitCode::from(skepu(rt.alloc(), words.as_slice(), &mut files, &mut out, &mut err))
}

/// The words after the program's name. Where the system does not give them, as for a word that is no text, there are
/// none, which is a wrong command line.
fn words_of<R: Env + AllocGlobal>(rt: &R) -> Result<Vec<String>, AllocError> {
    match env::args(rt) {
        Ok(words) => words.skip(1).collect(rt.alloc()),
        Err(_) => Ok(Vec::new(rt.alloc())),
    }
}
