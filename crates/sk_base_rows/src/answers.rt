//! What is told of a row.
use crate::names::names;
use crate::parts::{cut_of, edge_of, listed, seeded};
use crate::shapes::{place, range, shape};
use crate::states::states;
use crate::values::value;
use sk_tables::{Answers, Row};
use std::alloc::{AllocError, Global};
use std::str::from_utf8;

/// The answers of the small crates.
#[derive(Drop)]
pub struct Base;

impl Answers for Base {
    fn answer(&mut self, alloc: Global, question: &str, row: &Row) -> Result<String, AllocError> {
        let text = from_utf8(row.whole.as_slice()).unwrap_or("");
        match answered(alloc, question, text)? {
            Some(answer) => Ok(answer),
            None => String::from_str(alloc, "no call"),
        }
    }
}

/// What is answered, if the row is a call.
fn answered(alloc: Global, question: &str, text: &str) -> Result<Option<String>, AllocError> {
    if question == "value" {
        value(alloc, text)
    } else if question == "names" {
        names(alloc, text)
    } else if question == "states" {
        states(alloc, text)
    } else if question == "shape" || question == "place" || question == "range" {
        shaped(alloc, question, text)
    } else {
        parted(alloc, question, text)
    }
}

/// What is answered of shapes and ranges.
fn shaped(alloc: Global, question: &str, text: &str) -> Result<Option<String>, AllocError> {
    if question == "shape" {
        shape(alloc, text)
    } else if question == "place" {
        place(alloc, text)
    } else {
        range(alloc, text)
    }
}

/// What is answered of parts, edges and choosers.
fn parted(alloc: Global, question: &str, text: &str) -> Result<Option<String>, AllocError> {
    if question == "cut" {
        cut_of(alloc, text)
    } else if question == "edge" {
        edge_of(alloc, text)
    } else if question == "seed" {
        seeded(alloc, text)
    } else {
        listed(alloc, text)
    }
}
