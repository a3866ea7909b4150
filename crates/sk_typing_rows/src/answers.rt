//! What the front end answers for a text.
use sk_base::Ty;
use sk_lexer::tokens;
use sk_names::Name;
use sk_parser::parse;
use sk_tables::{Answers, Row};
use sk_tree::{Declared, Program};
use sk_types::{TypeFault, Typed, check};
use std::alloc::{AllocError, Global};

/// No text of a row has so many bytes or tokens.
const MANY: usize = 10_000;

/// The answers of the check of names and types.
#[derive(Drop)]
pub struct Typing;

impl Answers for Typing {
    fn answer(&mut self, alloc: Global, question: &str, row: &Row) -> Result<String, AllocError> {
        if question == "inputs" {
            inputs(alloc, row.whole.as_slice())
        } else if question == "numbers" {
            number(alloc, row.around.as_slice(), row.text.as_slice())
        } else {
            faults(alloc, row.whole.as_slice())
        }
    }
}

/// The program that a text is, if it is one.
fn program_of(alloc: Global, text: &[u8]) -> Option<Program> {
    if text.len() >= MANY {
        return None;
    }
    let tokens = tokens(alloc, text).ok()?;
    if tokens.len() >= MANY {
        return None;
    }
    parse(alloc, tokens.as_slice()).ok()
}

/// The text as a typed program, if it is one.
fn typed_of(alloc: Global, text: &[u8]) -> Option<Typed> {
    check(alloc, program_of(alloc, text)?).ok()
}

/// A fault, with its line.
fn told(alloc: Global, fault: TypeFault) -> Result<String, AllocError> {
    match fault {
        TypeFault::Unknown { line } => format!(in alloc; "unknown {line}"),
        TypeFault::Twice { line } => format!(in alloc; "twice {line}"),
        TypeFault::Mismatch { line } => format!(in alloc; "mismatch {line}"),
        TypeFault::Arity { line } => format!(in alloc; "arity {line}"),
        TypeFault::NoReturn { line } => format!(in alloc; "noreturn {line}"),
        TypeFault::NoMain => String::from_str(alloc, "nomain"),
        TypeFault::Memory => String::from_str(alloc, "memory"),
    }
}

/// `typed`, or the fault that is told of a program.
fn faults(alloc: Global, text: &[u8]) -> Result<String, AllocError> {
    match program_of(alloc, text) {
        Some(program) => match check(alloc, program) {
            Ok(_typed) => String::from_str(alloc, "typed"),
            Err(fault) => told(alloc, fault),
        },
        None => String::from_str(alloc, "not a program"),
    }
}

/// The inputs of a typed program: of each the name, the number of sizes and the type.
fn inputs(alloc: Global, text: &[u8]) -> Result<String, AllocError> {
    match typed_of(alloc, text) {
        Some(typed) => shown(alloc, typed.inputs()),
        None => String::from_str(alloc, "not typed"),
    }
}

/// The number of the function of that name in a typed program, and how many functions there are.
fn number(alloc: Global, text: &[u8], word: &[u8]) -> Result<String, AllocError> {
    let Some(typed) = typed_of(alloc, text) else {
        return String::from_str(alloc, "not typed");
    };
    let count = typed.program().functions.len();
    let name = Name::from_slice(alloc, word)?;
    match typed.function(&name) {
        Some(number) => format!(in alloc; "{number} of {count}"),
        None => format!(in alloc; "none of {count}"),
    }
}

/// Inputs with commas between them.
fn shown(alloc: Global, inputs: &[Declared]) -> Result<String, AllocError> {
    if inputs.is_empty() {
        return String::from_str(alloc, "none");
    }
    let mut out = String::new(alloc);
    for input in inputs {
        if !out.is_empty() {
            out.push_str(", ")?;
        }
        push_input(&mut out, input)?;
    }
    Ok(out)
}

/// Adds an input.
fn push_input(out: &mut String, input: &Declared) -> Result<(), AllocError> {
    for byte in input.name.as_bytes() {
        out.push(char::from(*byte))?;
    }
    out.push(' ')?;
    out.push(char::from(b'0' + input.kind % 10))?;
    out.push_str(match input.ty {
        Ty::Int => " int",
        Ty::Long => " long",
    })
}
