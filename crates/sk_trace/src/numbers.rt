ghost use Rattle.std.specs.Prelude.{◌≡◌};
ghost use Rattle.sk_trace.specs.Candidates.{cell_in, narrow_in, negative_in, positive_in, wide_in, with_digit};

use sk_base::Cell;

/// The number of 64 bits whose decimal digits these are; some number, if they are those of none.
pub fn wide(word: &[u8]) -> u64
    ensures { result ≡ wide_in word.now }
{
    let mut number = 0u64;
    'digits: for byte in word {
        number = more(number, *byte);
    }
    number
}

/// A number with one more digit.
fn more(number: u64, byte: u8) -> u64
    ensures { result ≡ with_digit number byte }
{
    number
        .wrapping_mul(10)
        .wrapping_add(u64::from(byte.wrapping_add(208)))
}

/// The number of 32 bits whose decimal digits these are; some number, if they are those of none.
pub fn narrow(word: &[u8]) -> u32
    ensures { result ≡ narrow_in word.now }
{
    u32::try_from(wide(word)).unwrap_or(0)
}

/// The cell whose decimal digits these are, behind `-` if it is below 0; some cell, if they are those of none.
pub fn cell(word: &[u8]) -> Cell
    ensures { result ≡ cell_in word.now }
{
    match word {
        [b'-', digits @ ..] => negative(wide(digits)),
        _ => positive(wide(word)),
    }
}

fn positive(number: u64) -> Cell
    ensures { result ≡ positive_in number }
{
    i64::try_from(number).unwrap_or(0)
}

fn negative(number: u64) -> Cell
    ensures { result ≡ negative_in number }
{
    i64::try_from(-i128::from(number)).unwrap_or(0)
}
