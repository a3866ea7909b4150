//! Whole numbers in decimal digits, read byte by byte.
ghost use Rattle.std.specs.Prelude.{◌≡◌, ◌++◌, ◌∷◌, ◌≤◌, ◌<◌, ◌^◌, ◌+◌, ◌*◌, ◌-◌, [], ℕ, List, false, true, min, if◌then◌else◌, nat_lt, nat_le, pos, neg_ℤ, Some, None};
ghost use Rattle.std.specs.Char.{is_ascii_digit};
ghost use Rattle.sk_data.specs.Decimals.{whole_number_within};
ghost use Rattle.sk_data.specs.Spelt.{IsReadAs};

use crate::taker::Taker;

/// A whole number, as far as its bytes were taken: an optional minus, and one digit or more. Needless zeros are taken, and
/// a magnitude of more than 64 bits is the greatest of them.
#[derive(Clone, Copy, PartialEq, Eq, Debug)]
pub enum Number {
    Empty,
    Minus,
    Positive(u64),
    Negative(u64),
    /// No number begins with the bytes that were taken.
    Refused,
}

impl Number {
    /// The number if it is at least `-bound` and below `bound`.
    pub fn value(self, bound: u64) -> Option<i64>
        requires { (0 < bound) × (bound ≤ 2 ^ 63) }
        ensures { (bytes : List ℕ) → IsReadAs self bytes → result ≡ whole_number_within bound bytes }
    {
        match self {
            Number::Positive(magnitude) => positive(magnitude, bound),
            Number::Negative(magnitude) => negative(magnitude, bound),
            Number::Empty | Number::Minus | Number::Refused => None,
        }
    }

    fn followed_by(self, byte: u8) -> Number
        ensures { (bytes : List ℕ) → IsReadAs self bytes → IsReadAs result (bytes ++ byte ∷ []) }
    {
        if byte.is_ascii_digit() {
            self.with_digit(byte)
        } else {
            self.with_other(byte)
        }
    }

    fn with_digit(self, digit: u8) -> Number
        requires { is_ascii_digit digit ≡ true }
        ensures { (bytes : List ℕ) → IsReadAs self bytes → IsReadAs result (bytes ++ digit ∷ []) }
    {
        match self {
            Number::Empty => Number::Positive(shifted(0, digit)),
            Number::Minus => Number::Negative(shifted(0, digit)),
            Number::Positive(magnitude) => Number::Positive(shifted(magnitude, digit)),
            Number::Negative(magnitude) => Number::Negative(shifted(magnitude, digit)),
            Number::Refused => Number::Refused,
        }
    }

    fn with_other(self, byte: u8) -> Number
        requires { is_ascii_digit byte ≡ false }
        ensures { (bytes : List ℕ) → IsReadAs self bytes → IsReadAs result (bytes ++ byte ∷ []) }
    {
        match self {
            Number::Empty => begun(byte),
            _ => Number::Refused,
        }
    }
}

impl Taker for Number {
    ghost room = { λ _. 0 };

    ghost took = { IsReadAs };

    fn take(&mut self, byte: u8) {
        *self = self.followed_by(byte);
    }
}

/// What a byte that is no digit begins.
fn begun(byte: u8) -> Number
    requires { is_ascii_digit byte ≡ false }
    ensures { IsReadAs result (byte ∷ []) }
{
    match byte {
        b'-' => Number::Minus,
        _ => Number::Refused,
    }
}

/// A magnitude with a digit behind it.
fn shifted(magnitude: u64, digit: u8) -> u64
    requires { is_ascii_digit digit ≡ true }
    ensures { result ≡ min (min (magnitude * 10) (2 ^ 64 - 1) + (digit - 48)) (2 ^ 64 - 1) }
{
    magnitude
        .saturating_mul(10)
        .saturating_add(u64::from(digit - b'0'))
}

fn positive(magnitude: u64, bound: u64) -> Option<i64>
    requires { bound ≤ 2 ^ 63 }
    ensures { result ≡ (if nat_lt magnitude bound then Some (pos magnitude) else None) }
{
    if magnitude < bound {
        Some(magnitude as i64)
    } else {
        None
    }
}

fn negative(magnitude: u64, bound: u64) -> Option<i64>
    requires { bound ≤ 2 ^ 63 }
    ensures { result ≡ (if nat_le magnitude bound then Some (neg_ℤ (pos magnitude)) else None) }
{
    if magnitude <= bound {
        Some(-i128::from(magnitude) as i64)
    } else {
        None
    }
}
