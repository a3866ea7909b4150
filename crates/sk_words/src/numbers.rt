ghost use Rattle.std.specs.Prelude.{◌≡◌, ◌++◌, [], OnOk, map};
ghost use Rattle.std.specs.Fmt.{decimal, signed_decimal};
ghost use Rattle.sk_words.specs.Strung.{strung, separated};

use itoa::Buffer;
use sk_base::Cell;
use std::alloc::AllocError;

/// Appends the digits of a number.
pub fn put_decimal(out: &mut Vec<u8>, number: u64) -> Result<(), AllocError>
    ensures { OnOk result (out.new.items ≡ out.old.items ++ decimal number) }
{
    let mut buffer = Buffer::new();
    out.extend_from_slice(buffer.format(number).as_bytes())
}

/// Appends a number, with `-` in front if it is below 0.
pub fn put_signed(out: &mut Vec<u8>, number: Cell) -> Result<(), AllocError>
    ensures { OnOk result (out.new.items ≡ out.old.items ++ signed_decimal number) }
{
    let mut buffer = Buffer::new();
    out.extend_from_slice(buffer.format(number).as_bytes())
}

/// Appends numbers, the first behind `lead` and each further one behind `between`.
pub fn put_decimals(
    out: &mut Vec<u8>,
    between: &[u8],
    lead: &[u8],
    numbers: &[u32],
) -> Result<(), AllocError>
    ensures { OnOk result (out.new.items ≡ out.old.items ++ strung between.now lead.now (map decimal numbers.now)) }
{
    let mut front = lead;
    for number in numbers {
        out.extend_from_slice(front)?;
        put_decimal(out, u64::from(*number))?;
        front = between;
    }
    Ok(())
}

/// Appends numbers with signs, with commas and blanks between.
pub fn put_signed_list(out: &mut Vec<u8>, numbers: &[Cell]) -> Result<(), AllocError>
    ensures { OnOk result (out.new.items ≡ out.old.items ++ separated (map signed_decimal numbers.now)) }
{
    let mut lead: &[u8] = b"";
    for number in numbers {
        out.extend_from_slice(lead)?;
        put_signed(out, *number)?;
        lead = b", ";
    }
    Ok(())
}
