//! The rows: lengths, with the values or the trap of each function.
use crate::indexed::Indexed;
use crate::places::expect_at_places;
use sk_base::Trap;
use sk_kernel::RunTrap;
use std::test::Fail;

/// `i * 2 + a` in one block, in a block that is full, and in a second one.
#[test]
fn an_index_at_each_place(rt: HostRuntime) -> Result<(), Fail> {
    let alloc = rt.alloc();
    let values = [(0, 7), (1, 9), (1022, 2051), (1023, 2053), (1024, 2055)];
    let rows = [
        (1, &values[..1]),
        (1023, &values[..3]),
        (1024, &values[..4]),
        (1025, &values[..]),
    ];
    for (count, values) in rows {
        expect_at_places(&rt, alloc, Indexed::Adding, count, 7, Ok(()), values)?;
    }
    Ok(())
}

/// The last place of a second block, and the first and the last one of a third.
#[test]
fn an_index_in_a_third_block(rt: HostRuntime) -> Result<(), Fail> {
    let alloc = rt.alloc();
    let values = [(0, 7), (2047, 4101), (2048, 4103), (2999, 6005)];
    expect_at_places(&rt, alloc, Indexed::Adding, 3000, 7, Ok(()), &values)?;
    Ok(())
}

/// The greatest and the least int, from which the sum goes on in 32-bit two's complement.
#[test]
fn an_index_and_an_int_at_its_bounds(rt: HostRuntime) -> Result<(), Fail> {
    let alloc = rt.alloc();
    let greatest = [(0, 2147483647), (1, -2147483647), (1024, -2147481601)];
    expect_at_places(
        &rt,
        alloc,
        Indexed::Adding,
        1025,
        i32::MAX,
        Ok(()),
        &greatest,
    )?;
    let least = [(0, -2147483648), (1, -2147483646), (1024, -2147481600)];
    expect_at_places(&rt, alloc, Indexed::Adding, 1025, i32::MIN, Ok(()), &least)?;
    Ok(())
}

/// `100 / (i - 5)`, which traps at the sixth place.
#[test]
fn a_divisor_0_at_an_index(rt: HostRuntime) -> Result<(), Fail> {
    let alloc = rt.alloc();
    let values = [(0, -20), (3, -50), (4, -100)];
    expect_at_places(&rt, alloc, Indexed::Parting, 5, 0, Ok(()), &values)?;
    let trapped = Err(RunTrap {
        trap: Trap::Divide,
        offset: 5,
    });
    for count in [6, 1023, 1024, 1025] {
        expect_at_places(&rt, alloc, Indexed::Parting, count, 0, trapped, &[])?;
    }
    Ok(())
}
