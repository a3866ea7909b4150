ghost use Rattle.std.specs.Prelude.{◌≡◌, ◌++◌, OnOk, codes};
ghost use Rattle.sk_words.specs.Strung.{separated};

use sk_names::Name;
use std::alloc::AllocError;

/// Appends a word with a blank in front.
pub fn put_word(out: &mut Vec<u8>, word: &[u8]) -> Result<(), AllocError>
    ensures { OnOk result (out.new.items ≡ out.old.items ++ (codes " " ++ word.now)) }
{
    out.extend_from_slice(b" ")?;
    out.extend_from_slice(word)
}

/// Appends names with commas and blanks between.
pub fn put_names(out: &mut Vec<u8>, names: &[Name]) -> Result<(), AllocError>
    ensures { OnOk result (out.new.items ≡ out.old.items ++ separated names.now) }
{
    let mut lead: &[u8] = b"";
    for name in names {
        out.extend_from_slice(lead)?;
        out.extend_from_slice(name.as_bytes())?;
        lead = b", ";
    }
    Ok(())
}
