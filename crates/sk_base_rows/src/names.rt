//! Names that shadow one another and come back.
use crate::words::parted_at;
use sk_scopes::Scopes;
use std::alloc::{AllocError, Global};
use std::fmt::Write;

/// What is answered by look-ups and for depths, with declarations and leavings between.
pub fn names(alloc: Global, text: &str) -> Result<Option<String>, AllocError> {
    let mut out = String::new(alloc);
    let mut scopes = Scopes::new(alloc);
    for word in text.split_whitespace() {
        push_change(&mut out, &mut scopes, word)?;
    }
    Ok(Some(out))
}

/// Makes a change, or adds an answer.
fn push_change<'a>(
    out: &mut String,
    scopes: &mut Scopes<'a, u32>,
    word: &'a str,
) -> Result<(), AllocError> {
    if word == "#" {
        return push_answer(out, Some(scopes.depth() as u64));
    }
    if let Some(name) = word.strip_suffix('?') {
        return push_answer(out, scopes.find(name.as_bytes()).map(u64::from));
    }
    if let Some(depth) = word.strip_prefix('<') {
        scopes.leave(depth.parse().unwrap_or(0));
        return Ok(());
    }
    let (name, known) = parted_at(word, '=');
    scopes.declare(name.as_bytes(), known.parse().unwrap_or(0))
}

/// Adds an answer behind the others.
fn push_answer(out: &mut String, answer: Option<u64>) -> Result<(), AllocError> {
    if !out.is_empty() {
        out.push(' ')?;
    }
    match answer {
        Some(number) => write!(out, "{number}"),
        None => out.push_str("none"),
    }
}
