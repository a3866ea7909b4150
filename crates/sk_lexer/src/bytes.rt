ghost use Rattle.std.specs.Prelude.{◌≡◌, length, take_while};
ghost use Rattle.sk_tokens.specs.Lexemes as definition;
ghost use Rattle.sk_names.specs.Bytes as bytes;

/// A space, a tab, a carriage return or a line feed.
pub fn is_blank(byte: u8) -> bool
    ensures { result ≡ definition.is_blank byte }
{
    byte == b' ' || byte == b'\t' || byte == b'\r' || byte == b'\n'
}

/// An ASCII letter or `_`.
pub fn is_letter(byte: u8) -> bool
    ensures { result ≡ bytes.is_letter byte }
{
    matches!(byte, b'A'..=b'Z' | b'a'..=b'z' | b'_')
}

/// `0` to `9`.
pub fn is_digit(byte: u8) -> bool
    ensures { result ≡ bytes.is_digit byte }
{
    matches!(byte, b'0'..=b'9')
}

/// What a name may have after its first byte.
pub fn is_word_byte(byte: u8) -> bool
    ensures { result ≡ bytes.is_word_byte byte }
{
    is_letter(byte) || is_digit(byte)
}

/// A digit, or a letter `a` to `f` of either case.
pub fn is_hex_digit(byte: u8) -> bool
    ensures { result ≡ definition.is_hex_digit byte }
{
    matches!(byte, b'0'..=b'9' | b'a'..=b'f' | b'A'..=b'F')
}

/// The value of a decimal or hexadecimal digit.
pub fn digit_value(digit: u8) -> u8
    ensures { result ≡ definition.digit_value digit }
{
    match digit {
        b'0'..=b'9' => digit - b'0',
        b'a'..=b'f' => digit - b'a' + 10,
        _ => digit.saturating_sub(b'A' - 10),
    }
}

/// How many bytes of a word the rest begins with.
pub fn word_len(rest: &[u8]) -> usize
    ensures { result ≡ length (take_while bytes.is_word_byte rest.now) }
{
    rest.iter().take_while(|byte| is_word_byte(**byte)).count()
}

/// How many decimal digits the rest begins with.
pub fn digits_len(rest: &[u8]) -> usize
    ensures { result ≡ length (take_while bytes.is_digit rest.now) }
{
    rest.iter().take_while(|byte| is_digit(**byte)).count()
}

/// How many hexadecimal digits the rest begins with.
pub fn hex_digits_len(rest: &[u8]) -> usize
    ensures { result ≡ length (take_while definition.is_hex_digit rest.now) }
{
    rest.iter().take_while(|byte| is_hex_digit(**byte)).count()
}
