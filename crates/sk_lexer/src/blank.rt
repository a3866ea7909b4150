ghost use Rattle.std.specs.Prelude.{◌≡◌};
ghost use Rattle.sk_tokens.specs.Tokens.{line_rest, comment_rest};

/// How many bytes the line has from here on, its line feed not among them.
pub fn line_len(rest: &[u8]) -> usize
    ensures { result ≡ line_rest rest.now }
{
    rest.iter().take_while(|byte| **byte != b'\n').count()
}

/// How many bytes a comment has from here up to the end of the next `*/`, if there is one.
pub fn comment_len(rest: &[u8]) -> Option<usize>
    ensures { result ≡ comment_rest rest.now }
{
    let mut at = 0;
    while at < rest.len() {
        if rest[at..].starts_with(b"*/") {
            return Some(at + 2);
        }
        at += 1;
    }
    None
}
