//! What the words of a command line ask for.
ghost use Rattle.std.specs.Prelude.{◌≡◌, map, string_bytes, IfSome, IfNone};
ghost use Rattle.sk_cli.specs.Answer.{Run, Usage, asked_of, run_of_file};

/// The file that the words ask to run, where they are `run` and its name.
pub fn asked(words: &[String]) -> Option<&str>
    ensures run { IfSome result (λ name. asked_of (map string_bytes words.now) ≡ Run (run_of_file name.now)) }
    ensures usage { IfNone result (asked_of (map string_bytes words.now) ≡ Usage) }
{
    if words.len() == 2 && words[0].as_str() == "run" {
        Some(words[1].as_str())
    } else {
        None
    }
}
