//! What is told of a text.
use crate::objects::{held, shown};
use crate::words::code;
use sk_emitter::compiled;
use sk_isa::Code;
use sk_lexer::tokens;
use sk_listing::listing;
use sk_main_emitter::compile;
use sk_parser::parse;
use sk_tables::{Answers, Row, characters};
use sk_tree::Program;
use std::alloc::{AllocError, Global};

/// No text of a row has so many bytes or tokens.
const MANY: usize = 10_000;

/// The answers of the compiler.
#[derive(Drop)]
pub struct Compiler;

impl Answers for Compiler {
    fn answer(&mut self, alloc: Global, question: &str, row: &Row) -> Result<String, AllocError> {
        if question == "words" {
            return characters(alloc, listing(alloc, &code(alloc)?)?.as_slice());
        }
        match program_of(alloc, row.whole.as_slice()) {
            Some(program) => told(alloc, question, &program),
            None => String::from_str(alloc, "no program"),
        }
    }
}

/// The program that a text is, if it is one.
fn program_of(alloc: Global, text: &[u8]) -> Option<Program> {
    if text.len() >= MANY {
        return None;
    }
    let tokens = tokens(alloc, text).ok()?;
    if tokens.len() >= MANY {
        return None;
    }
    parse(alloc, tokens.as_slice()).ok()
}

/// What is told of the compiled form of a program.
fn told(alloc: Global, question: &str, program: &Program) -> Result<String, AllocError> {
    if question == "main" {
        return lines(alloc, &compile(alloc, program)?.main);
    }
    if question == "held" {
        return held(alloc, &compile(alloc, program)?);
    }
    let object = compiled(alloc, program)?;
    if question == "object" {
        return shown(alloc, &object);
    }
    match object.functions.as_slice().last() {
        Some(code) => lines(alloc, code),
        None => String::from_str(alloc, "no function"),
    }
}

/// The lines of a code.
fn lines(alloc: Global, code: &Code) -> Result<String, AllocError> {
    characters(alloc, listing(alloc, code)?.as_slice())
}
