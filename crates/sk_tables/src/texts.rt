//! Texts of a table, and bytes as such texts.
ghost use Rattle.std.specs.Prelude.{◌<◌};

use std::alloc::{AllocError, Global};

/// How the next letter of a text is read.
#[derive(Clone, Copy)]
enum Next {
    Plain,
    /// Behind `\`.
    Escaped,
    /// The first digit of a byte's number.
    First,
    /// The second digit, behind this one.
    Second(u8),
}

/// A text as far as it has been read: its bytes, and those of a part that is repeated behind them.
#[derive(Drop)]
struct Spelling {
    bytes: Vec<u8>,
    part: Vec<u8>,
    is_in_part: bool,
    times: usize,
}

impl Spelling {
    /// Reads a letter, and tells how the one behind it is read.
    fn read(&mut self, alloc: Global, next: Next, letter: u8) -> Result<Next, AllocError> {
        match next {
            Next::Plain if letter == b'\\' => return Ok(Next::Escaped),
            Next::Plain => self.push(letter)?,
            Next::Escaped if letter == b'x' => return Ok(Next::First),
            Next::Escaped => self.push_escaped(alloc, letter)?,
            Next::First => return Ok(Next::Second(digit(letter))),
            Next::Second(high) => self.push(high % 16 * 16 + digit(letter))?,
        }
        Ok(Next::Plain)
    }

    /// Adds a byte.
    fn push(&mut self, byte: u8) -> Result<(), AllocError> {
        if self.is_in_part {
            self.part.push(byte)?;
        } else {
            self.bytes.push(byte)?;
        }
        Ok(())
    }

    /// Adds what a letter behind `\` stands for.
    fn push_escaped(&mut self, alloc: Global, letter: u8) -> Result<(), AllocError> {
        match letter {
            b'{' => self.is_in_part = true,
            b'}' => {
                let repeated = self.part.as_slice().repeat(alloc, self.times)?;
                self.bytes.extend_from_slice(repeated.as_slice())?;
                self.part.clear();
                self.is_in_part = false;
            }
            _ => self.push(meant(letter))?,
        }
        Ok(())
    }
}

/// What a letter behind `\` stands for.
fn meant(letter: u8) -> u8 {
    match letter {
        b'n' => b'\n',
        b't' => b'\t',
        b'r' => b'\r',
        b's' => b' ',
        b'd' => 0x7f,
        b'f' => 0xff,
        _ => letter,
    }
}

/// A digit of base 16, in small letters.
fn digit(letter: u8) -> u8
    ensures { result < 16 }
{
    match letter {
        b'0'..=b'9' => letter - b'0',
        b'a'..=b'f' => letter - b'a' + 10,
        _ => 0,
    }
}

/// The bytes that a text stands for, where its repeated parts stand so often.
pub fn spelt(alloc: Global, text: &str, times: usize) -> Result<Vec<u8>, AllocError> {
    let mut spelling = Spelling {
        bytes: Vec::new(alloc),
        part: Vec::new(alloc),
        is_in_part: false,
        times,
    };
    let mut next = Next::Plain;
    for letter in text.as_bytes() {
        next = spelling.read(alloc, next, *letter)?;
    }
    Ok(spelling.bytes)
}

/// The bytes that a text stands for, where its repeated parts stand once.
pub fn bytes_of(alloc: Global, text: &str) -> Result<Vec<u8>, AllocError> {
    spelt(alloc, text, 1)
}

/// The first word of a text, and what is behind the blank after it.
pub fn word_of(text: &str) -> (&str, &str) {
    text.split_once(' ').unwrap_or((text, ""))
}
