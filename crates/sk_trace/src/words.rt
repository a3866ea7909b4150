ghost use Rattle.std.specs.Prelude.{◌≡◌, ◌++◌, ℕ, List, [], OnOk, codes, map};
ghost use Rattle.std.specs.Fmt.{decimal, signed_decimal};
ghost use Rattle.sk_words.specs.Strung.{spaced, strung, joined_by};
ghost use Rattle.sk_trace.specs.Words.{or_absent, comma_list};

use sk_base::Cell;
use sk_words::{put_decimal, put_signed};
use std::alloc::AllocError;

/// What is one word of a line.
pub trait Word {
    ghost word: { Self → List ℕ };

    /// Appends the word.
    fn put(&self, out: &mut Vec<u8>) -> Result<(), AllocError>
        ensures { OnOk result (out.new.items ≡ out.old.items ++ word self.now) };
}

/// Its digits.
impl Word for u64 {
    ghost word = { decimal };

    fn put(&self, out: &mut Vec<u8>) -> Result<(), AllocError> {
        put_decimal(out, *self)
    }
}

/// Its digits.
impl Word for u32 {
    ghost word = { decimal };

    fn put(&self, out: &mut Vec<u8>) -> Result<(), AllocError> {
        put_decimal(out, u64::from(*self))
    }
}

/// Its digits, behind `-` if it is below 0.
impl Word for Cell {
    ghost word = { signed_decimal };

    fn put(&self, out: &mut Vec<u8>) -> Result<(), AllocError> {
        put_signed(out, *self)
    }
}

/// Appends words, the first behind `lead` and each further one behind `between`.
pub fn put_strung<T: Word>(
    out: &mut Vec<u8>,
    between: &[u8],
    lead: &[u8],
    words: &[T],
) -> Result<(), AllocError>
    ensures { OnOk result (out.new.items ≡ out.old.items ++ strung between.now lead.now (map T.word words.now)) }
{
    let mut front = lead;
    'words: for word in words {
        out.extend_from_slice(front)?;
        word.put(out)?;
        front = between;
    }
    Ok(())
}

/// Appends words, each behind a blank.
pub fn put_spaced<T: Word>(out: &mut Vec<u8>, words: &[T]) -> Result<(), AllocError>
    ensures { OnOk result (out.new.items ≡ out.old.items ++ spaced (map T.word words.now)) }
{
    put_strung(out, b" ", b" ", words)
}

/// Appends a list with commas between, or `-` if it is empty, behind a blank.
pub fn put_list<T: Word>(out: &mut Vec<u8>, words: &[T]) -> Result<(), AllocError>
    ensures { OnOk result (out.new.items ≡ out.old.items ++ (codes " " ++ comma_list (map T.word words.now))) }
{
    if words.is_empty() {
        return out.extend_from_slice(b" -");
    }
    put_strung(out, b",", b" ", words)
}

/// Appends what is there, or `-`, behind a byte.
pub fn put_optional<T: Word>(
    out: &mut Vec<u8>,
    lead: &[u8],
    word: &Option<T>,
) -> Result<(), AllocError>
    ensures { OnOk result (out.new.items ≡ out.old.items ++ (lead.now ++ or_absent T.word word.now)) }
{
    out.extend_from_slice(lead)?;
    match word {
        Some(word) => word.put(out),
        None => out.extend_from_slice(b"-"),
    }
}
