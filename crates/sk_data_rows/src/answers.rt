//! What comes of a text, and of containers.
use crate::distinct::names_differ;
use sk_data::{Dumped, Given, InputFault, dump, input};
use sk_names::Text;
use sk_tables::push_bytes;
use sk_tree::Declared;
use std::alloc::{AllocError, Global};
use std::fmt::Write;

/// No text of a row has so many bytes.
const MANY: usize = 10_000;

/// What these bytes give the inputs, each as `name shape: cells;`, or the fault as the program tells it.
pub fn outcome(alloc: Global, inputs: &[Declared], bytes: &[u8]) -> Result<String, AllocError> {
    if !names_differ(inputs) || bytes.len() >= MANY {
        return String::from_str(alloc, "not a row");
    }
    match input(alloc, bytes, inputs) {
        Ok(given) => shown(alloc, given.as_slice()),
        Err(fault) => told(alloc, &fault),
    }
}

/// The text of containers.
pub fn text_of(alloc: Global, containers: &[Dumped]) -> Result<Vec<u8>, AllocError> {
    match dump(alloc, containers) {
        Ok(text) => Ok(text),
        Err(_) => Vec::from_slice(alloc, b"memory"),
    }
}

fn shown(alloc: Global, all: &[Given]) -> Result<String, AllocError> {
    let mut out = String::new(alloc);
    for given in all {
        push_given(&mut out, given)?;
    }
    Ok(out)
}

fn push_given(out: &mut String, given: &Given) -> Result<(), AllocError> {
    push_bytes(out, given.name.as_bytes())?;
    push_shape(out, given.shape.sizes())?;
    out.push_str(":")?;
    for cell in given.cells.as_slice() {
        write!(out, " {cell}")?;
    }
    out.push_str(";")
}

fn push_shape(out: &mut String, sizes: &[u32]) -> Result<(), AllocError> {
    for (axis, size) in sizes.iter().enumerate() {
        out.push(if axis == 0 { ' ' } else { 'x' })?;
        write!(out, "{size}")?;
    }
    Ok(())
}

/// A fault as the program tells it.
fn told(alloc: Global, fault: &InputFault) -> Result<String, AllocError> {
    match fault {
        InputFault::Absent { name } => named(alloc, "absent ", name),
        InputFault::Doubled { name } => named(alloc, "doubled ", name),
        InputFault::BadShape { row } => format!(in alloc; "shape record {row}"),
        InputFault::Count { row } => format!(in alloc; "count record {row}"),
        InputFault::Number { row, field } => format!(in alloc; "number record {row} field {field}"),
        InputFault::Memory => String::from_str(alloc, "memory"),
    }
}

fn named(alloc: Global, kind: &str, name: &Text) -> Result<String, AllocError> {
    let mut out = String::from_str(alloc, kind)?;
    push_bytes(&mut out, name.as_bytes())?;
    Ok(out)
}
