ghost use Rattle.std.specs.Prelude.{◌≡◌, map};
ghost use Rattle.sk_grammar.specs.Signs.{meant_by};

/// What the first of the entries with this word stands for.
pub fn meant<T: Copy>(entries: &[(&[u8], T)], word: &[u8]) -> Option<T>
    ensures { result ≡ meant_by (map (λ entry. (entry.0.now, entry.1)) entries.now) word.now }
{
    let entry = entries.iter().find(|entry| entry.0 == word)?;
    Some(entry.1)
}
