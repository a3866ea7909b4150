//! Whole numbers in decimal digits, read and written whole.
ghost use Rattle.std.specs.Prelude.{◌≡◌, ◌++◌, ◌-◌, ◌^◌, min, OnOk, option_map};
ghost use Rattle.sk_data.specs.Decimals.{natural_of};

use itoa::{Buffer, Integer};
use std::alloc::AllocError;

/// The number that one decimal digit or more write, or `u64::MAX` for a greater one; none for any other text. Needless
/// zeros are read.
pub fn natural(text: &[u8]) -> Option<u64>
    ensures { result ≡ option_map (λ number. min number (2 ^ 64 - 1)) (natural_of text.now) }
{
    if text.is_empty() {
        return None;
    }
    let mut value = 0u64;
    'digits: for byte in text {
        if !byte.is_ascii_digit() {
            return None;
        }
        value = value
            .saturating_mul(10)
            .saturating_add(u64::from(*byte - b'0'));
    }
    Some(value)
}

/// Appends a number in decimal digits, with a minus where it is below 0.
pub fn put_number<I: Integer>(out: &mut Vec<u8>, number: I) -> Result<(), AllocError>
    ensures { OnOk result (out.new.items ≡ out.old.items ++ I.text number) }
{
    let mut buffer = Buffer::new();
    out.extend_from_slice(buffer.format(number).as_bytes())
}
