//! What is told of a text.
ghost use Rattle.sk_grammar.specs.Grammar.{IsFromText};

use crate::lines::lines;
use crate::reading::{Unread, read};
use crate::written::written;
use sk_parser::ParseFault;
use sk_print::print;
use sk_tables::{Answers, Row, characters};
use sk_tree::Program;
use std::alloc::{AllocError, Global};

/// The answers of the parser and the printer.
#[derive(Drop)]
pub struct Grammar;

impl Answers for Grammar {
    fn answer(&mut self, alloc: Global, question: &str, row: &Row) -> Result<String, AllocError> {
        match read(alloc, row.whole.as_slice()) {
            Ok(program) => told(alloc, question, &program),
            Err(Unread::Tokens) => String::from_str(alloc, "no tokens"),
            Err(Unread::Parse(fault)) => refused(alloc, question, fault),
        }
    }
}

/// What is told of a program.
fn told(alloc: Global, question: &str, program: &Program) -> Result<String, AllocError>
    requires { IsFromText program.now }
{
    if question == "text" {
        characters(alloc, print(alloc, program)?.as_slice())
    } else if question == "lines" {
        lines(alloc, program)
    } else {
        tree(alloc, program)
    }
}

/// What is told of a fault.
fn refused(alloc: Global, question: &str, fault: ParseFault) -> Result<String, AllocError> {
    if question == "fault" || fault == ParseFault::Memory {
        format!(in alloc; "{fault}")
    } else {
        String::from_str(alloc, "refused")
    }
}

/// A program's tree, and what is to be told of its text, if anything is.
fn tree(alloc: Global, program: &Program) -> Result<String, AllocError>
    requires { IsFromText program.now }
{
    let mut tree = written(alloc, program)?;
    let note = once_printed(alloc, program, tree.as_str())?;
    tree.push_str(note)?;
    Ok(tree)
}

/// What is to be told of a program's text: nothing, where it is read as the same tree and printed alike.
fn once_printed(alloc: Global, program: &Program, tree: &str) -> Result<&'static str, AllocError>
    requires { IsFromText program.now }
{
    let printed = print(alloc, program)?;
    let Ok(again) = read(alloc, printed.as_slice()) else {
        return Ok(", but what is printed is refused");
    };
    if written(alloc, &again)?.as_str() != tree {
        return Ok(", but what is printed is another tree");
    }
    if print(alloc, &again)?.as_slice() != printed.as_slice() {
        return Ok(", but it is printed otherwise the second time");
    }
    Ok("")
}
