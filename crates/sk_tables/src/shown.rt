//! How bytes are printed.
use std::alloc::{AllocError, Global};

/// Adds bytes as the characters that have their numbers, but for the ends of lines, the tab and the backslash.
pub fn push_shown(out: &mut String, bytes: &[u8]) -> Result<(), AllocError> {
    for byte in bytes {
        match *byte {
            b'\n' => out.push_str("\\n")?,
            b'\t' => out.push_str("\\t")?,
            b'\r' => out.push_str("\\r")?,
            b'\\' => out.push_str("\\\\")?,
            other => out.push(char::from(other))?,
        }
    }
    Ok(())
}

/// Adds bytes in characters of ASCII alone: the others, and the backslash, by their numbers.
pub fn push_bytes(out: &mut String, bytes: &[u8]) -> Result<(), AllocError> {
    for byte in bytes {
        push_byte(out, *byte)?;
    }
    Ok(())
}

fn push_byte(out: &mut String, byte: u8) -> Result<(), AllocError> {
    match byte {
        b'\n' => out.push_str("\\n"),
        b'\r' => out.push_str("\\r"),
        b'\t' => out.push_str("\\t"),
        b' '..=b'[' | b']'..=b'~' => out.push(char::from(byte)),
        _ => push_number(out, byte),
    }
}

/// Adds a byte by its number.
fn push_number(out: &mut String, byte: u8) -> Result<(), AllocError> {
    out.push_str("\\x")?;
    out.push(letter_of(byte / 16))?;
    out.push(letter_of(byte % 16))
}

fn letter_of(digit: u8) -> char {
    if digit < 10 {
        char::from(b'0' + digit)
    } else {
        char::from(b'a' + digit % 16 - 10)
    }
}

/// Bytes as the characters that have their numbers.
pub fn characters(alloc: Global, bytes: &[u8]) -> Result<String, AllocError> {
    let mut text = String::new(alloc);
    for byte in bytes {
        text.push(char::from(*byte))?;
    }
    Ok(text)
}
