//! Halos of two ranks: what is left to messages, and what after one index was written.
ghost use Rattle.std.specs.Prelude.{◌≡◌, ◌≤◌, IfOk, OnOk};
ghost use Rattle.sk_coherence_rows.specs.Full.{IsFull, Keeps};

use crate::plays::{Line, Vector, open, poke, read, read_later, write};
use sk_base::Range;
use sk_coherence::{AcquireFault, CopyId, Directory, Transfer};
use sk_parts::Listed;
use sk_spaces::{Kept, Spaces};
use std::alloc::Global;
use std::test::Fail;

/// What is left to messages for the halves of a vector of eight cells with one cell more on each side.
type Halos = (Vec<Transfer>, Vec<Transfer>);

/// The halos of a vector that only the host has.
fn halos(
    alloc: Global,
    dir: &mut Directory<Kept>,
    chooser: &mut Listed,
) -> Result<Halos, AcquireFault>
    requires { 2 ≤ dir.old.spaces.memories.ranks }
{
    let store = open(alloc, dir, 8)?;
    write(
        alloc,
        dir,
        store,
        0,
        &[1, 2, 3, 4, 5, 6, 7, 8],
        Line::Host,
        chooser,
    )?;
    let vector = Vector { store, len: 8 };
    let first = read_later(alloc, dir, vector, 1, Range { lo: 0, hi: 5 }, chooser)?;
    let second = read_later(alloc, dir, vector, 2, Range { lo: 3, hi: 8 }, chooser)?;
    Ok((first, second))
}

/// A message of a range from the host's copy to another one.
fn message(to: u64, lo: u32, hi: u32) -> Transfer
    requires { lo ≤ hi }
{
    Transfer {
        from: CopyId { id: 0 },
        to: CopyId { id: to },
        range: Range { lo, hi },
    }
}

#[test]
fn all_of_a_halo_is_left_to_a_message(rt: HostRuntime) -> Result<(), Fail> {
    let spaces = Spaces::new(rt.alloc(), 8, 2, Kept::new(rt.alloc()))?;
    let mut dir = Directory::new(rt.alloc(), spaces);
    let mut chooser = Listed::new([].to_vec(rt.alloc())?);
    let (first, second) = halos(rt.alloc(), &mut dir, &mut chooser)?;
    assert_eq!(rt; first.as_slice(), [message(1, 0, 5)].as_slice());
    assert_eq!(rt; second.as_slice(), [message(2, 3, 8)].as_slice());
    Ok(())
}

/// The halos again, after both were filled and one index was written on the host.
fn halos_again(
    alloc: Global,
    dir: &mut Directory<Kept>,
    chooser: &mut Listed,
) -> Result<Halos, AcquireFault>
    requires { 2 ≤ dir.old.spaces.memories.ranks }
{
    let store = open(alloc, dir, 8)?;
    write(
        alloc,
        dir,
        store,
        0,
        &[1, 2, 3, 4, 5, 6, 7, 8],
        Line::Host,
        chooser,
    )?;
    let vector = Vector { store, len: 8 };
    read(alloc, dir, vector, 1, Range { lo: 0, hi: 5 }, chooser)?;
    read(alloc, dir, vector, 2, Range { lo: 3, hi: 8 }, chooser)?;
    poke(alloc, dir, vector, 4, 7, chooser)?;
    let first = read_later(alloc, dir, vector, 1, Range { lo: 0, hi: 5 }, chooser)?;
    let second = read_later(alloc, dir, vector, 2, Range { lo: 3, hi: 8 }, chooser)?;
    Ok((first, second))
}

#[test]
fn one_written_index_alone_is_left_to_messages(rt: HostRuntime) -> Result<(), Fail> {
    let spaces = Spaces::new(rt.alloc(), 8, 2, Kept::new(rt.alloc()))?;
    let mut dir = Directory::new(rt.alloc(), spaces);
    let mut chooser = Listed::new([].to_vec(rt.alloc())?);
    let (first, second) = halos_again(rt.alloc(), &mut dir, &mut chooser)?;
    assert_eq!(rt; first.as_slice(), [message(1, 4, 5)].as_slice());
    assert_eq!(rt; second.as_slice(), [message(2, 4, 5)].as_slice());
    Ok(())
}
