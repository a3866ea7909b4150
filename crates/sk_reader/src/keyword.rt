ghost use Rattle.std.specs.Prelude.{◌≡◌};
ghost use Rattle.sk_reading.specs.Reading.{keyword_of};

use sk_grammar::meant;
use sk_reading::Keyword;

static KEYWORDS: [(&[u8], Keyword); 11] = [
    (b"int", Keyword::Int),
    (b"long", Keyword::Long),
    (b"auto", Keyword::Auto),
    (b"const", Keyword::Const),
    (b"if", Keyword::If),
    (b"else", Keyword::Else),
    (b"for", Keyword::For),
    (b"return", Keyword::Return),
    (b"skepu", Keyword::Skepu),
    (b"std", Keyword::Std),
    (b"skepu_input", Keyword::SkepuInput),
];

/// The reserved word that a word is, if it is one.
#[tactic(auto, unfolding(sk_reading::specs::Reading::keyword_of))]
pub fn keyword_of(word: &[u8]) -> Option<Keyword>
    ensures { result ≡ keyword_of word.now }
{
    meant(&KEYWORDS, word)
}
