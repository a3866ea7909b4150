ghost use Rattle.std.specs.Prelude.{◌≡◌};
ghost use Rattle.sk_reading.specs.Reading as spec;

use sk_reading::Keyword;
use sk_tokens::Sign;

/// Whether two signs are the same.
#[tactic(auto, unfolding(sk_reading::specs::Reading::same_sign))]
pub fn same_sign(one: Sign, other: Sign) -> bool
    ensures { result ≡ spec.same_sign one other }
{
    one == other
}

/// Whether two reserved words are the same.
#[tactic(auto, unfolding(sk_reading::specs::Reading::same_keyword))]
pub fn same_keyword(one: Keyword, other: Keyword) -> bool
    ensures { result ≡ spec.same_keyword one other }
{
    one == other
}
