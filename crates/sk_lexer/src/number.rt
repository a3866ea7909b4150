ghost use Rattle.std.specs.Prelude.{◌≡◌, ◌<◌, ◌^◌, ◌-◌, ◌==◌, ◌&&◌, ◌||◌, if◌then◌else◌, nat_lt, min, true, drop, slice_index};
ghost use Rattle.sk_tokens.specs.Lexemes.{NumberLexeme, digits_value};
ghost use Rattle.sk_names.specs.Bytes.{is_digit};
ghost use Rattle.sk_tokens.specs.Lexemes as lexemes;
ghost use Rattle.sk_tokens.specs.Tokens.{token_at};
ghost use Rattle.sk_tokens.specs.Tokens as definition;
ghost use Rattle.sk_lexer.specs.Pieces.{piece_of};
ghost use Rattle.sk_token_laws.specs.Fronts.{is_suffix, IsLongestNumeral};
ghost use Rattle.sk_names.specs.Bytes as bytes;

use crate::bytes::{digit_value, digits_len, hex_digits_len, is_hex_digit, is_word_byte};
use crate::piece::{Flaw, Piece};
use sk_base::{Cell, Ty};
use sk_tokens::TokenKind;

/// A number without its suffix: how many bytes it has, and its value, or `u64::MAX` for a greater one.
struct Numeral {
    bytes: usize,
    value: u64,
}

/// The number at the front of the rest, which begins with a digit.
pub fn number(rest: &[u8]) -> Piece
    requires { is_digit (slice_index rest.now 0) ≡ true }
    ensures { piece_of result ≡ token_at rest.now }
{
    let Numeral { bytes, value } = longest_numeral(rest);
    if has_suffix(rest, bytes) {
        judged(rest, bytes + 1, value, true)
    } else {
        judged(rest, bytes, value, false)
    }
}

/// Whether a suffix stands at this byte.
fn has_suffix(rest: &[u8], at: usize) -> bool
    ensures { result ≡ is_suffix (slice_index rest.now at) }
{
    at < rest.len() && (rest[at] == b'L' || rest[at] == b'l')
}

/// The number with these bytes, this value, and a suffix or not, by what follows it.
fn judged(rest: &[u8], bytes: usize, value: u64, is_suffixed: bool) -> Piece
    ensures { piece_of result
        ≡ definition.judged bytes (NumberLexeme value is_suffixed) (drop bytes rest.now) }
{
    if runs_on(rest, bytes) {
        Piece::Faulty(Flaw::NoToken)
    } else if value > Cell::MAX as u64 {
        Piece::Faulty(Flaw::Wide)
    } else {
        let ty = type_of(value, is_suffixed);
        Piece::Found(bytes, TokenKind::Number(ty, value as Cell))
    }
}

/// Whether a letter, a digit or `_` stands at this byte.
fn runs_on(rest: &[u8], at: usize) -> bool
    ensures { result ≡ bytes.is_word_byte (slice_index rest.now at) }
{
    at < rest.len() && is_word_byte(rest[at])
}

/// The type of a number: long with a suffix, or where int does not hold it.
fn type_of(value: u64, is_suffixed: bool) -> Ty
    ensures { result ≡ (if is_suffixed || nat_lt 2147483647 value then Ty.Long else Ty.Int) }
{
    if is_suffixed || value > i32::MAX as u64 {
        Ty::Long
    } else {
        Ty::Int
    }
}

/// The longest number without a suffix at the front of the rest, which begins with a digit.
fn longest_numeral(rest: &[u8]) -> Numeral
    requires { is_digit (slice_index rest.now 0) ≡ true }
    ensures { IsLongestNumeral rest.now result.bytes result.value }
{
    if rest[0] != b'0' {
        let bytes = digits_len(rest);
        let value = value_of(10, &rest[..bytes]);
        Numeral { bytes, value }
    } else if begins_hex(rest) {
        let digits = &rest[2..];
        let bytes = hex_digits_len(digits);
        let value = value_of(16, &digits[..bytes]);
        Numeral {
            bytes: 2 + bytes,
            value,
        }
    } else {
        Numeral { bytes: 1, value: 0 }
    }
}

/// Whether `x` and a hexadecimal digit follow the first byte.
fn begins_hex(rest: &[u8]) -> bool
    ensures { result ≡ (slice_index rest.now 1 == 120 && lexemes.is_hex_digit (slice_index rest.now 2)) }
{
    rest.len() > 2 && rest[1] == b'x' && is_hex_digit(rest[2])
}

/// The value of digits at base 10 or 16, or `u64::MAX` for a greater one.
fn value_of(base: u64, digits: &[u8]) -> u64
    requires { 0 < base }
    ensures { result ≡ min (digits_value base digits.now) (2 ^ 64 - 1) }
{
    let mut value = 0u64;
    for digit in digits {
        let shifted = value.saturating_mul(base);
        value = shifted.saturating_add(u64::from(digit_value(*digit)));
    }
    value
}
