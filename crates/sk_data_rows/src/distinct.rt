//! Whether inputs have names of their own.
ghost use Rattle.std.specs.Prelude.{◌≡◌, true};
ghost use Rattle.std.specs.List.{list_any};
ghost use Rattle.sk_data.specs.Records.{HaveDistinctNames, same_name};
ghost use Rattle.sk_data_rows.specs.Names.{differ};

use sk_tree::Declared;

/// Whether no two of these have the same name.
pub fn names_differ(declared: &[Declared]) -> bool
    ensures value { result ≡ differ declared.now }
    ensures distinct { result ≡ true → HaveDistinctNames declared.now }
{
    all_differ(declared)
}

fn all_differ(declared: &[Declared]) -> bool
    ensures { result ≡ differ declared.now }
{
    match declared {
        [] => true,
        [first, rest @ ..] => !has_name(rest, first.name.as_bytes()) && all_differ(rest),
    }
}

fn has_name(declared: &[Declared], name: &[u8]) -> bool
    ensures { result ≡ list_any (λ input. same_name name.now input.name) declared.now }
{
    declared.iter().any(|input| name == input.name.as_bytes())
}
