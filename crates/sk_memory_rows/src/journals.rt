use sk_base::{Cell, EdgeMode, Shape, Ty, Variant};
use sk_spaces::{
    CallMode, CallSettings, Cells, Counted, Journal, Kept, KernelKind, Memory, Numbers, Step,
    Totals,
};
use std::alloc::Global;
use std::process::Abort;
use std::test::Fail;

/// Settings of which none is as it is at first.
fn settings() -> CallSettings {
    CallSettings {
        mode: CallMode::Row,
        overlap: (1, 2),
        edge: EdgeMode::Pad,
        pad: 5,
        start: Some(6),
    }
}

/// Cells that steps share.
fn cells(alloc: Global, cells: &[Cell]) -> Result<Cells, Memory> {
    Cells::new(alloc, cells.to_vec(alloc)?)
}

/// Numbers that steps share.
fn numbers(alloc: Global, numbers: &[u64]) -> Result<Numbers, Memory> {
    Numbers::new(alloc, numbers.to_vec(alloc)?)
}

/// A call.
fn call(alloc: Global) -> Result<Step, Memory> {
    let operands = numbers(alloc, &[8, 9])?;
    Ok(Step::Call {
        call: 1,
        line: 2,
        instance: 3,
        variant: Variant::Cluster,
        parts: 4,
        recorded: true,
        result: None,
        operands,
        uniforms: cells(alloc, &[-1])?,
        settings: settings(),
    })
}

/// A kernel of it, which computes five cells.
fn kernel(alloc: Global) -> Result<Step, Memory> {
    Ok(Step::Kernel {
        call: 1,
        kind: KernelKind::Element,
        part: 0,
        lo: 10,
        hi: 15,
        out: 2,
        trapped: None,
        inputs: numbers(alloc, &[3])?,
    })
}

/// A new store.
fn store(alloc: Global) -> Result<Step, Memory> {
    Ok(Step::Store {
        store: 1,
        ty: Ty::Long,
        shape: Shape::new(alloc, &[2, 3]).ok_or(Memory)?,
    })
}

/// The step once more is the same.
fn expect_again(rt: &impl Abort, step: &Step) -> Result<(), Memory> {
    assert_eq!(rt; step.again()?, *step);
    Ok(())
}

#[test]
fn a_step_once_more_is_equal(rt: HostRuntime) -> Result<(), Fail> {
    expect_again(&rt, &call(rt.alloc())?)?;
    expect_again(&rt, &kernel(rt.alloc())?)?;
    expect_again(&rt, &store(rt.alloc())?)?;
    expect_again(&rt, &Step::Flush)?;
    Ok(())
}

/// Notes a kernel, a copy of three cells that go far, and one of seven that do not.
fn note_three(alloc: Global, counted: &mut Counted) -> Result<(), Memory> {
    counted.note(alloc, kernel(alloc)?, false)?;
    counted.note(
        alloc,
        Step::Copy {
            from: 0,
            to: 1,
            lo: 0,
            hi: 3,
        },
        true,
    )?;
    counted.note(
        alloc,
        Step::Copy {
            from: 0,
            to: 1,
            lo: 0,
            hi: 7,
        },
        false,
    )
}

#[test]
fn totals_count_kernels_and_cells_that_go_far(rt: HostRuntime) -> Result<(), Fail> {
    let mut counted = Counted::new();
    note_three(rt.alloc(), &mut counted)?;
    assert_eq!(rt;
        counted.totals(),
        Totals {
            kernels: 1,
            work: 5,
            moved: 3
        }
    );
    Ok(())
}

/// Makes room for two steps, and notes them.
fn note_two(alloc: Global, kept: &mut Kept) -> Result<(), Memory> {
    kept.reserve(alloc, 2)?;
    kept.note(alloc, Step::Flush, false)?;
    kept.note(alloc, kernel(alloc)?, false)
}

#[test]
fn a_journal_with_room_takes_steps(rt: HostRuntime) -> Result<(), Fail> {
    let mut kept = Kept::new(rt.alloc());
    note_two(rt.alloc(), &mut kept)?;
    assert_eq!(rt; kept.steps().len(), 2);
    assert_eq!(rt;
        kept.totals(),
        Totals {
            kernels: 1,
            work: 5,
            moved: 0
        }
    );
    Ok(())
}
