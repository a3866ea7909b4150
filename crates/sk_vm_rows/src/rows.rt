//! The rows: arguments, with the value or the trap of each function.
use crate::calls::{Called, expect, expect_each, expect_quotients};
use crate::sharing::{Asked, expect_in_turns};
use sk_base::Trap;
use sk_kernel::RunTrap;
use std::test::Fail;

#[test]
fn turns_of_a_loop(rt: HostRuntime) -> Result<(), Fail> {
    let rows = [
        (0, Ok(0)),
        (65536, Ok(65536)),
        (65537, Err(Trap::Turns)),
        (5, Ok(5)),
    ];
    expect(&rt, rt.alloc(), Called::Counting, &rows)?;
    Ok(())
}

#[test]
fn division(rt: HostRuntime) -> Result<(), Fail> {
    let rows = [(1, 0, Err(Trap::Divide)), (7, -2, Ok(-3))];
    expect_quotients(&rt, rt.alloc(), &rows)?;
    Ok(())
}

#[test]
fn turns_of_two_calls(rt: HostRuntime) -> Result<(), Fail> {
    let rows = [(32768, Ok(65536)), (32769, Err(Trap::Turns))];
    expect(&rt, rt.alloc(), Called::Calling, &rows)?;
    Ok(())
}

#[test]
fn a_guarded_division(rt: HostRuntime) -> Result<(), Fail> {
    let rows = [(0, Ok(0)), (3, Ok(1)), (10, Ok(0))];
    expect(&rt, rt.alloc(), Called::Guarding, &rows)?;
    Ok(())
}

#[test]
fn a_choice(rt: HostRuntime) -> Result<(), Fail> {
    let rows = [(-7, Ok(7)), (7, Ok(7))];
    expect(&rt, rt.alloc(), Called::Choosing, &rows)?;
    Ok(())
}

#[test]
fn both_widths(rt: HostRuntime) -> Result<(), Fail> {
    let alloc = rt.alloc();
    expect(&rt, alloc, Called::Widening, &[(3, Ok(12884901888))])?;
    expect(&rt, alloc, Called::Truncating, &[(1, Ok(-2147483648))])?;
    Ok(())
}

const LENGTHS: [u32; 7] = [1, 255, 256, 1023, 1024, 1025, 3000];

/// The first, a middle and the last place of a block, and places of a second and a third one.
const PLACES: [u32; 6] = [0, 511, 1023, 1024, 1500, 2999];

#[test]
fn a_run_of_each_length(rt: HostRuntime) -> Result<(), Fail> {
    let alloc = rt.alloc();
    expect_each(&rt, alloc, Called::Inverting, 0, 0, (0, 0), Ok((0, 0)))?;
    for count in LENGTHS {
        expect_each(
            &rt,
            alloc,
            Called::Inverting,
            count,
            0,
            (3, -5),
            Ok((3, -2)),
        )?;
        expect_each(
            &rt,
            alloc,
            Called::Choosing,
            count,
            count - 1,
            (7, -8),
            Ok((7, 8)),
        )?;
    }
    Ok(())
}

/// Functions with locals: one that holds the parameter, and one with a value of its own.
#[test]
fn locals_at_each_place(rt: HostRuntime) -> Result<(), Fail> {
    for count in LENGTHS {
        expect_each(
            &rt,
            rt.alloc(),
            Called::Widening,
            count,
            count - 1,
            (3, -1),
            Ok((12884901888, -4294967296)),
        )?;
        expect_each(
            &rt,
            rt.alloc(),
            Called::Truncating,
            count,
            count - 1,
            (1, -5),
            Ok((-2147483648, 2147483642)),
        )?;
    }
    Ok(())
}

#[test]
fn a_divisor_0_at_a_place(rt: HostRuntime) -> Result<(), Fail> {
    for offset in PLACES {
        let trapped = RunTrap {
            trap: Trap::Divide,
            offset,
        };
        expect_each(
            &rt,
            rt.alloc(),
            Called::Inverting,
            3000,
            offset,
            (4, 0),
            Err(trapped),
        )?;
        expect_each(
            &rt,
            rt.alloc(),
            Called::Guarding,
            3000,
            offset,
            (3, 0),
            Ok((1, 0)),
        )?;
    }
    let first = RunTrap {
        trap: Trap::Divide,
        offset: 0,
    };
    expect_each(
        &rt,
        rt.alloc(),
        Called::Inverting,
        3000,
        2000,
        (0, 0),
        Err(first),
    )?;
    Ok(())
}

#[test]
fn turns_at_a_place(rt: HostRuntime) -> Result<(), Fail> {
    let trapped = RunTrap {
        trap: Trap::Turns,
        offset: 5,
    };
    expect_each(
        &rt,
        rt.alloc(),
        Called::Counting,
        9,
        5,
        (2, 65537),
        Err(trapped),
    )?;
    expect_each(&rt, rt.alloc(), Called::Counting, 9, 5, (2, 3), Ok((2, 3)))?;
    Ok(())
}

#[test]
fn a_frame_that_is_shared(rt: HostRuntime) -> Result<(), Fail> {
    let rows = [
        (Asked::Mapped(5), Ok(10)),
        (Asked::Joined(7, -2), Ok(-3)),
        (Asked::Reduced(-7), Ok(7)),
        (Asked::Joined(1, 0), Err(Trap::Divide)),
        (Asked::Mapped(3), Ok(6)),
        (Asked::Mapped(32769), Err(Trap::Turns)),
        (Asked::Joined(-9, 2), Ok(-4)),
        (Asked::Value(Called::Counting, 4), Ok(4)),
        (Asked::Reduced(4), Ok(4)),
        (Asked::Value(Called::Widening, 3), Ok(12884901888)),
        (Asked::Divided(-7, 2), Ok(-3)),
        (Asked::Divided(1, 0), Err(Trap::Divide)),
        (Asked::Mapped(6), Ok(12)),
    ];
    expect_in_turns(&rt, rt.alloc(), &rows)?;
    Ok(())
}
