//! Numbers as text: each as itself, so many equal ones as `NUMBER*COUNT`, and numbers that follow one another as `FIRST..BEHIND`.
use sk_base::Cell;
use std::alloc::{AllocError, Global};
use std::fmt::Write;

/// No row has so many numbers.
const MANY: u32 = 100_000;

/// The numbers of a text, with blanks between.
pub fn numbers(alloc: Global, text: &str) -> Option<Vec<Cell>> {
    let mut numbers = Vec::new(alloc);
    for word in text.split_whitespace() {
        push_meant(&mut numbers, word)?;
    }
    Some(numbers)
}

/// Adds the numbers of a word.
fn push_meant(numbers: &mut Vec<Cell>, word: &str) -> Option<()> {
    if let Some((number, count)) = word.split_once('*') {
        return push_equal(numbers, number.parse().ok()?, count.parse().ok()?);
    }
    if let Some((first, behind)) = word.split_once("..") {
        return push_following(numbers, first.parse().ok()?, behind.parse().ok()?);
    }
    numbers.push(word.parse().ok()?).ok()
}

/// Adds so many equal numbers.
fn push_equal(numbers: &mut Vec<Cell>, number: Cell, count: u32) -> Option<()> {
    for _ in 0..count.min(MANY) {
        numbers.push(number).ok()?;
    }
    Some(())
}

/// Adds the numbers from one on that lie below another.
fn push_following(numbers: &mut Vec<Cell>, first: i32, behind: i32) -> Option<()> {
    for number in first..behind {
        numbers.push(Cell::from(number)).ok()?;
    }
    Some(())
}

/// Numbers of which each is by a step above the one before: equal ones, or such that follow one another.
#[derive(Clone, Copy)]
struct Piece {
    first: Cell,
    last: Cell,
    step: Cell,
    count: u32,
}

impl Piece {
    /// One number.
    fn of(number: Cell) -> Piece {
        Piece {
            first: number,
            last: number,
            step: 0,
            count: 1,
        }
    }

    /// The numbers with one more behind them, where that is by their step above the last.
    fn with(self, number: Cell) -> Option<Piece> {
        let step = number.checked_sub(self.last)?;
        let fits = if self.count == 1 {
            step == 0 || step == 1
        } else {
            step == self.step
        };
        if fits {
            Some(Piece {
                first: self.first,
                last: number,
                step,
                count: self.count.checked_add(1)?,
            })
        } else {
            None
        }
    }

    /// Adds the numbers, as one word where they are four or more.
    fn push(self, out: &mut String) -> Result<(), AllocError> {
        let Piece {
            first,
            last,
            step,
            count,
        } = self;
        if count < 4 {
            return self.push_each(out);
        }
        if step == 0 {
            write!(out, " {first}*{count}")
        } else {
            let behind = last.wrapping_add(1);
            write!(out, " {first}..{behind}")
        }
    }

    /// Adds each number as a word.
    fn push_each(self, out: &mut String) -> Result<(), AllocError> {
        let mut number = self.first;
        for _ in 0..self.count {
            write!(out, " {number}")?;
            number = number.wrapping_add(self.step);
        }
        Ok(())
    }
}

/// Adds numbers, each with a blank in front; four and more as one word where they are equal, or follow one another.
pub fn push_numbers(out: &mut String, numbers: &[Cell]) -> Result<(), AllocError> {
    let mut piece: Option<Piece> = None;
    for number in numbers {
        piece = Some(match piece {
            None => Piece::of(*number),
            Some(before) => match before.with(*number) {
                Some(longer) => longer,
                None => {
                    before.push(out)?;
                    Piece::of(*number)
                }
            },
        });
    }
    match piece {
        Some(last) => last.push(out),
        None => Ok(()),
    }
}
