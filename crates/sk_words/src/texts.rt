ghost use Rattle.std.specs.Prelude.{◌≡◌, ◌++◌, OnOk};
ghost use Rattle.sk_words.specs.Escapes.{escaped, escaped_text, quoted};

use std::alloc::AllocError;

/// Appends a byte of a text, as the pair that stands for it or as itself.
fn put_escaped_byte(out: &mut Vec<u8>, byte: u8) -> Result<(), AllocError>
    ensures { OnOk result (out.new.items ≡ out.old.items ++ escaped byte) }
{
    match byte {
        b'\n' => out.extend_from_slice(b"\\n"),
        b'\t' => out.extend_from_slice(b"\\t"),
        b'\\' => out.extend_from_slice(b"\\\\"),
        b'"' => out.extend_from_slice(b"\\\""),
        other => out.extend_from_slice(&[other]),
    }
}

/// Appends the bytes of a text as they stand between quotes.
pub fn put_escaped(out: &mut Vec<u8>, text: &[u8]) -> Result<(), AllocError>
    ensures { OnOk result (out.new.items ≡ out.old.items ++ escaped_text text.now) }
{
    for byte in text {
        put_escaped_byte(out, *byte)?;
    }
    Ok(())
}

/// Appends a text between its quotes.
pub fn put_quoted(out: &mut Vec<u8>, text: &[u8]) -> Result<(), AllocError>
    ensures { OnOk result (out.new.items ≡ out.old.items ++ quoted text.now) }
{
    out.extend_from_slice(b"\"")?;
    put_escaped(out, text)?;
    out.extend_from_slice(b"\"")
}
