//! Command lines, and faults of the file and the streams.
use crate::runs::{Faults, RUN, Ran, Wanted, expect_run};
use std::alloc::{AllocError, Global};
use std::test::Fail;

/// The program of the example `twice`.
fn twice() -> &'static str {
    "\
int twice(int a) { return a * 2; }
int main() {
auto m = skepu::Map(twice);
skepu::Vector<int> a(3, 21);
m(a, a);
std::cout << a(2) << std::endl;
return 0; }
"
}

/// The program with another function and fill value, which prints 123456789.
fn prints_nine_digits(alloc: Global) -> Result<String, AllocError> {
    let source = twice().replace(alloc, "a * 2;", "a + 0;")?;
    source.replace(alloc, "a(3, 21)", "a(3, 123456789)")
}

#[test]
fn an_example_and_its_trap(rt: HostRuntime) -> Result<(), Fail> {
    let alloc = rt.alloc();
    expect_run(
        &rt,
        alloc,
        twice().as_bytes(),
        Wanted::ended("42\n"),
        "twice",
    )?;
    let outside = twice().replace(alloc, "a(2)", "a(3)")?;
    let trap = Wanted::silent(3, "trap index line 6 element 0\n");
    expect_run(&rt, alloc, outside.as_bytes(), trap, "a(3)")?;
    let digits = prints_nine_digits(alloc)?;
    expect_run(
        &rt,
        alloc,
        digits.as_bytes(),
        Wanted::ended("123456789\n"),
        "nine digits",
    )?;
    Ok(())
}

#[test]
fn faults(rt: HostRuntime) -> Result<(), Fail> {
    let alloc = rt.alloc();
    let digits = prints_nine_digits(alloc)?;
    let read = Faults {
        file_call: Some(0),
        ..Faults::NONE
    };
    let read_again = Faults {
        file_call: Some(1),
        ..Faults::NONE
    };
    let full = Faults {
        out_room: Some(5),
        ..Faults::NONE
    };
    let untold = Faults {
        err_room: Some(0),
        ..Faults::NONE
    };
    let cut = Wanted {
        status: 8,
        printed: "12345",
        line: "write fault output\n",
    };
    let gone = ["run", "gone"];
    let rows = [
        (RUN, digits.as_bytes(), full, cut),
        (
            RUN,
            digits.as_bytes(),
            read,
            Wanted::silent(7, "read fault prog\n"),
        ),
        // The source is read once.
        (
            RUN,
            digits.as_bytes(),
            read_again,
            Wanted::ended("123456789\n"),
        ),
        (
            &gone,
            b"",
            Faults::NONE,
            Wanted::silent(7, "read fault gone\n"),
        ),
        (RUN, b"", untold, Wanted::silent(1, "")),
        (
            RUN,
            b"int main() { return 1 / 0; }",
            untold,
            Wanted::silent(3, ""),
        ),
        (&gone, b"", untold, Wanted::silent(7, "")),
    ];
    for (words, source, faults, wanted) in rows {
        Ran::of(alloc, words, source, faults)?.expect(&rt, wanted, wanted.line);
    }
    Ok(())
}

#[test]
fn command_lines(rt: HostRuntime) -> Result<(), Fail> {
    let alloc = rt.alloc();
    let usage = Wanted::silent(2, "usage\n");
    let help = Wanted::silent(7, "read fault --help\n");
    let rows: [(&[&str], Wanted<'_>); 6] = [
        (&[], usage),
        (&["run"], usage),
        (&["run", "a", "b"], usage),
        (&["fly", "x"], usage),
        (&["Run", "prog"], usage),
        (&["run", "--help"], help),
    ];
    for (words, wanted) in rows {
        let ran = Ran::of(alloc, words, twice().as_bytes(), Faults::NONE)?;
        ran.expect(&rt, wanted, wanted.line);
    }
    Ok(())
}
