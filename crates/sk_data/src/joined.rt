ghost use Rattle.std.specs.Prelude.{◌≡◌, ◌++◌, ◌∷◌, OnOk, map};
ghost use Rattle.std.specs.List.{flat_map, join_with_byte};

use crate::decimal::put_number;
use itoa::Integer;
use std::alloc::AllocError;

/// Appends numbers in decimal digits, with a byte between two of them.
pub fn put_joined<I: Integer>(
    out: &mut Vec<u8>,
    separator: u8,
    numbers: &[I],
) -> Result<(), AllocError>
    ensures { OnOk result (out.new.items ≡ out.old.items ++ join_with_byte separator (map I.text numbers.now)) }
{
    match numbers {
        [] => Ok(()),
        [first, rest @ ..] => {
            put_number(out, *first)?;
            put_behind(out, separator, rest)
        }
    }
}

/// Appends numbers in decimal digits, each behind a byte.
pub fn put_behind<I: Integer>(
    out: &mut Vec<u8>,
    separator: u8,
    numbers: &[I],
) -> Result<(), AllocError>
    ensures { OnOk result (out.new.items ≡ out.old.items ++ flat_map (λ number. separator ∷ I.text number) numbers.now) }
{
    'numbers: for number in numbers {
        out.push(separator)?;
        put_number(out, *number)?;
    }
    Ok(())
}
