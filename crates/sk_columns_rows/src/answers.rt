//! What is told of a row.
use crate::columns::evaluated;
use crate::instrs::instrs;
use crate::numbers::{numbers, push_numbers};
use sk_tables::{Answers, Row};
use std::alloc::{AllocError, Global};
use std::str::from_utf8;

/// The answers of codes over columns.
#[derive(Drop)]
pub struct Columned;

impl Answers for Columned {
    fn answer(&mut self, alloc: Global, _question: &str, row: &Row) -> Result<String, AllocError> {
        let text = from_utf8(row.whole.as_slice()).unwrap_or("");
        let (code, rest) = parted(text);
        let (left, rest) = parted(rest);
        let (right, from) = parted(rest);
        let Some(code) = instrs(alloc, code) else {
            return String::from_str(alloc, "no code");
        };
        let (Some(left), Some(right)) = (numbers(alloc, left), numbers(alloc, right)) else {
            return String::from_str(alloc, "no columns");
        };
        let from = from.trim().parse().unwrap_or(0);
        match evaluated(alloc, &code, &left, &right, from)? {
            Some(cells) => {
                let mut out = String::from_str(alloc, "gives")?;
                push_numbers(&mut out, &cells)?;
                Ok(out)
            }
            None => String::from_str(alloc, "left to the caller"),
        }
    }
}

/// What stands before a semicolon, and what stands behind it.
fn parted(text: &str) -> (&str, &str) {
    text.split_once(';').unwrap_or((text, ""))
}
