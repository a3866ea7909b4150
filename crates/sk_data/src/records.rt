//! The records of a text, one after another.
ghost use Rattle.std.specs.Prelude.{◌≡◌, ◌≤◌, length};
ghost use Rattle.csv.specs.Reading.{strip_bom};
ghost use Rattle.sk_data.specs.Reading.{IsAtRecord, is_marked, records_left};

/// A text without the byte order mark that may stand in front of it.
pub fn without_mark(bytes: &[u8]) -> &[u8]
    ensures { result.now ≡ strip_bom bytes.now }
{
    if has_mark(bytes) { &bytes[3..] } else { bytes }
}

/// Whether a byte order mark stands in front of a text.
fn has_mark(bytes: &[u8]) -> bool
    ensures { result ≡ is_marked bytes.now }
{
    bytes.len() >= 3 && bytes[0] == 0xef && bytes[1] == 0xbb && bytes[2] == 0xbf
}

/// A text without the ends of lines in front of it.
pub fn at_record(text: &[u8]) -> &[u8]
    ensures same { records_left result.now ≡ records_left text.now }
    ensures starts { IsAtRecord result.now }
    ensures shorter { length result.now ≤ length text.now }
{
    'ends: for at in 0..text.len() {
        if text[at] != b'\r' && text[at] != b'\n' {
            return &text[at..];
        }
    }
    &text[text.len()..]
}
