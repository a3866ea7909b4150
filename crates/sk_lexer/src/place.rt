ghost use Rattle.std.specs.Prelude.{◌≡◌, ◌+◌, ◌^◌, ◌<◌, length, fold};
ghost use Rattle.sk_lexer.specs.Places.{place_then};

use crate::bytes::is_blank;

/// How far the text is read.
#[derive(Clone, Copy, Debug)]
pub struct Place {
    /// The next byte.
    pub at: usize,
    /// Its line, from 1.
    pub line: u32,
    /// Blanks alone stand before it on its line.
    pub begins_line: bool,
}

impl Place {
    pub const START: Place = Place {
        at: 0,
        line: 1,
        begins_line: true,
    };

    /// The place after these bytes, which stand at this one.
    pub fn past(self, bytes: &[u8]) -> Place
        requires place_fits { self.at + length bytes.now < 2 ^ 31 }
        requires line_fits { self.line + length bytes.now < 2 ^ 32 }
        ensures { result ≡ fold place_then self bytes.now }
    {
        let mut place = self;
        for byte in bytes {
            place = place.after(*byte);
        }
        place
    }

    /// The place after this byte, which stands at this one.
    fn after(self, byte: u8) -> Place
        requires place_fits { self.at + 1 < 2 ^ 31 }
        requires line_fits { self.line + 1 < 2 ^ 32 }
        ensures { result ≡ place_then self byte }
    {
        let at = self.at + 1;
        if byte == b'\n' {
            Place {
                at,
                line: self.line + 1,
                begins_line: true,
            }
        } else {
            Place {
                at,
                line: self.line,
                begins_line: is_blank(byte) && self.begins_line,
            }
        }
    }
}
