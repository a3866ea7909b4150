//! Lines of the table.
use crate::answers::{outcome, text_of};
use crate::lines::{container_of, inputs_of};
use sk_data::Dumped;
use sk_tables::{Teller, bytes_of, push_bytes, word_of};
use sk_tree::Declared;
use std::alloc::{AllocError, Global};

/// How far a table has been read.
#[derive(Drop)]
pub struct Table {
    /// The inputs of the rows that follow.
    inputs: Vec<Declared>,
    /// The containers of the dump that follows, and the inputs that they are declared as.
    containers: Vec<Dumped>,
    declared: Vec<Declared>,
}

impl Teller for Table {
    fn tell(&mut self, alloc: Global, line: &str) -> Result<Option<String>, AllocError> {
        let (word, text) = word_of(line);
        if word == "row" {
            return Ok(Some(self.row(alloc, text)?));
        }
        if line == "dump" {
            return Ok(Some(self.dump(alloc)?));
        }
        if word == "inputs" {
            self.inputs = inputs_of(alloc, text)?;
            return Ok(None);
        }
        if word == "container" {
            self.add(alloc, text)?;
            return Ok(None);
        }
        Ok(Some(String::from_str(alloc, line)?))
    }
}

impl Table {
    /// No inputs, and no containers.
    pub fn new(alloc: Global) -> Table {
        Table {
            inputs: Vec::new(alloc),
            containers: Vec::new(alloc),
            declared: Vec::new(alloc),
        }
    }

    /// What comes of a row, with its text behind it.
    fn row(&self, alloc: Global, text: &str) -> Result<String, AllocError> {
        let bytes = bytes_of(alloc, text)?;
        let outcome = outcome(alloc, self.inputs.as_slice(), bytes.as_slice())?;
        format!(in alloc; "{text} => {outcome}")
    }

    /// One more container.
    fn add(&mut self, alloc: Global, text: &str) -> Result<(), AllocError> {
        if let Some(container) = container_of(alloc, text)? {
            self.containers.push(container.dumped)?;
            self.declared.push(container.declared)?;
        }
        Ok(())
    }

    /// The text of the containers, and what it gives read as input. They are forgotten.
    fn dump(&mut self, alloc: Global) -> Result<String, AllocError> {
        let bytes = text_of(alloc, self.containers.as_slice())?;
        let back = outcome(alloc, self.declared.as_slice(), bytes.as_slice())?;
        let mut text = String::new(alloc);
        push_bytes(&mut text, bytes.as_slice())?;
        self.containers.clear();
        self.declared.clear();
        format!(in alloc; "dumped {text}\nread back {back}")
    }
}
