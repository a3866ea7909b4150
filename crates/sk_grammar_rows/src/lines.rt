//! The lines of functions and statements as text.
use sk_tree::{Program, Statement, What};
use std::alloc::{AllocError, Global};
use std::fmt::Write;

/// Appends the line of a statement, and those of the statements in it.
#[cycle(lines)]
fn put_lines(out: &mut String, statement: &Statement) -> Result<(), AllocError> {
    let line = statement.line;
    write!(out, " {line}")?;
    match &statement.what {
        What::If(_, one, other) => {
            put_lines_in(out, one.as_slice())?;
            put_lines_in(out, other.as_slice())
        }
        What::For(first, _, step, body) => {
            put_lines(out, first.get())?;
            put_lines(out, step.get())?;
            put_lines_in(out, body.as_slice())
        }
        _ => Ok(()),
    }
}

/// Appends the lines of each of the statements.
#[cycle(lines)]
fn put_lines_in(out: &mut String, statements: &[Statement]) -> Result<(), AllocError> {
    for statement in statements {
        put_lines(out, statement)?;
    }
    Ok(())
}

/// The line of each function, in brackets, and of each statement in it, a blank before each. The statements in a
/// statement come after it; those in the head of a `for` come before its block.
pub fn lines(alloc: Global, program: &Program) -> Result<String, AllocError> {
    let mut out = String::new(alloc);
    for function in program.functions.as_slice() {
        let line = function.line;
        write!(out, "[{line}]")?;
        put_lines_in(&mut out, function.body.as_slice())?;
    }
    Ok(out)
}
