ghost use Rattle.std.specs.Prelude.{◌≡◌, ◌≤◌};

use sk_base::Range;
use sk_spaces::{Block, Cells, Counted, Journal, Kept, Memory, SpaceFault, Spaces, Step, Totals};
use std::alloc::Global;
use std::fmt::Write;
use std::test::Fail;

/// What is answered for one cell more than there is room for, and the cells that are taken before and after.
type Overfull = (u32, Result<Block, SpaceFault>, u32);

/// Fills the space of a rank with four cells, and asks for one more.
fn overfull(alloc: Global, spaces: &mut Spaces<Counted>) -> Result<Overfull, SpaceFault>
    requires { 1 ≤ spaces.old.memories.ranks }
{
    spaces.alloc(alloc, 0, 1, Range { lo: 0, hi: 4 })?;
    let before = spaces.used(1);
    let refused = spaces.alloc(alloc, 0, 1, Range { lo: 4, hi: 5 });
    Ok((before, refused, spaces.used(1)))
}

#[test]
fn a_space_of_four_cells_holds_no_fifth(rt: HostRuntime) -> Result<(), Fail> {
    let mut spaces = Spaces::new(rt.alloc(), 4, 1, Counted::new())?;
    let (before, refused, after) = overfull(rt.alloc(), &mut spaces)?;
    assert_eq!(rt; before, 4);
    assert_eq!(rt; after, 4);
    assert_eq!(rt;
        refused,
        Err(SpaceFault::NoRoom {
            used: 4,
            len: 1,
            capacity: 4
        })
    );
    Ok(())
}

/// Puts two thousand cells into the space of the host, and tells how many are taken in that of a rank.
fn housed(alloc: Global, spaces: &mut Spaces<Counted>) -> Result<u32, SpaceFault>
    requires { 1 ≤ spaces.old.memories.ranks }
{
    spaces.alloc(alloc, 0, 0, Range { lo: 0, hi: 1000 })?;
    spaces.alloc(alloc, 0, 0, Range { lo: 0, hi: 1000 })?;
    Ok(spaces.used(1))
}

#[test]
fn the_host_has_no_end(rt: HostRuntime) -> Result<(), Fail> {
    let mut spaces = Spaces::new(rt.alloc(), 1, 1, Counted::new())?;
    assert_eq!(rt; housed(rt.alloc(), &mut spaces)?, 0);
    assert_eq!(rt; spaces.capacity(), 1);
    Ok(())
}

/// The step of a kernel that writes 7 and 8 from index 2 on.
fn write_step(alloc: Global, copy: u64) -> Result<Step, Memory> {
    let cells = [7, 8].to_vec(alloc)?;
    Ok(Step::Write {
        copy,
        lo: 2,
        cells: Cells::new(alloc, cells)?,
    })
}

/// Changes two blocks of one store in each way, adds what their cells are behind the first copy, and tells how many are taken
/// in the rank's space at the end.
fn changed(alloc: Global, spaces: &mut Spaces<Kept>, out: &mut String) -> Result<u32, SpaceFault>
    requires { spaces.old.memories.ranks ≡ 2 }
{
    spaces.reserve(alloc, 9)?;
    let host = spaces.alloc(alloc, 3, 0, Range { lo: 0, hi: 4 })?;
    let rank = spaces.alloc(alloc, 3, 2, Range { lo: 2, hi: 4 })?;
    spaces.named(write_step(alloc, host.id)?);
    spaces.kernel_out(alloc, host, 2, &[7, 8])?;
    spaces.poke(alloc, host, 3, 9)?;
    spaces.copy(alloc, host, rank, Range { lo: 2, hi: 4 })?;
    let of_host = spaces.cells(host);
    let of_rank = spaces.cells(rank);
    let last = spaces.peek(rank, 3);
    if write!(out, "{of_host:?} {of_rank:?} {last}").is_err() {
        return Err(SpaceFault::Memory);
    }
    spaces.named(Step::Back {
        from: rank.id,
        to: host.id,
        lo: 3,
        hi: 4,
    });
    spaces.copy(alloc, rank, host, Range { lo: 3, hi: 4 })?;
    spaces.note(
        alloc,
        Step::Read {
            copy: host.id,
            lo: 0,
            hi: 4,
        },
    )?;
    spaces.free(alloc, rank)?;
    Ok(spaces.used(2))
}

/// The steps of `changed`, each on a line.
const STEPS: &str = "\
Alloc { copy: 0, store: 3, space: 0, lo: 0, hi: 4 }
Alloc { copy: 1, store: 3, space: 2, lo: 2, hi: 4 }
Write { copy: 0, lo: 2, cells: Shared { list: [7, 8] } }
Poke { copy: 0, index: 3, cell: 9 }
Copy { from: 0, to: 1, lo: 2, hi: 4 }
Back { from: 1, to: 0, lo: 3, hi: 4 }
Read { copy: 0, lo: 0, hi: 4 }
Free { copy: 1 }
";

/// Steps as text, each on a line.
fn shown(alloc: Global, steps: &[Step]) -> Result<String, Memory> {
    let mut out = String::new(alloc);
    for step in steps {
        if write!(out, "{step:?}\n").is_err() {
            return Err(Memory);
        }
    }
    Ok(out)
}

#[test]
fn each_change_is_noted_as_its_step(rt: HostRuntime) -> Result<(), Fail> {
    let mut spaces = Spaces::new(rt.alloc(), 8, 2, Kept::new(rt.alloc()))?;
    let mut cells = String::new(rt.alloc());
    assert_eq!(rt; changed(rt.alloc(), &mut spaces, &mut cells)?, 0);
    assert_eq!(rt; cells.as_str(), "[0, 0, 7, 9] [7, 9] 9");
    let journal = spaces.finish();
    let steps = shown(rt.alloc(), journal.steps())?;
    assert_eq!(rt; steps.as_str(), STEPS);
    assert_eq!(rt;
        journal.totals(),
        Totals {
            kernels: 0,
            work: 0,
            moved: 3
        }
    );
    Ok(())
}
