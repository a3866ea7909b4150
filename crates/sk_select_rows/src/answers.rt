//! What is told of a row.
use crate::calls::chosen;
use crate::tables::{outcome, shown};
use sk_select::Tuning;
use sk_tables::{Answers, Row};
use std::alloc::{AllocError, Global};

/// The answers of tuning tables.
#[derive(Drop)]
pub struct Selection;

impl Answers for Selection {
    fn answer(&mut self, alloc: Global, question: &str, row: &Row) -> Result<String, AllocError> {
        if question == "choice" {
            chosen(alloc, row.around.as_slice(), row.text.as_slice())
        } else if question == "nothing" {
            shown(alloc, &Tuning::new(alloc))
        } else {
            outcome(alloc, row.whole.as_slice())
        }
    }
}
