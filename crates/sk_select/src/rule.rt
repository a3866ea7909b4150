ghost use Rattle.std.specs.Prelude.{◌≡◌, map};
ghost use Rattle.sk_select.specs.Table.{most_parts, rule_of, skeleton_in, variant_in, variant_words};
ghost use Rattle.sk_grammar.specs.Signs.{skeleton_words};
ghost use Rattle.serde_json.specs.View.{view};

use crate::fault::{FieldName, TableFault};
use crate::field::{check_fields, number, upto, word};
use crate::tuning::Rule;
use serde_json::Value;
use sk_base::Variant;
use sk_tree::Skeleton;

/// The parts of a call that is not run on ranks.
const MOST_PARTS: u32 = 256;

static FIELDS: [FieldName; 4] = [
    FieldName::Skeleton,
    FieldName::Upto,
    FieldName::Variant,
    FieldName::Parts,
];

static SKELETONS: [(&[u8], Skeleton); 8] = [
    (b"Map", Skeleton::Map),
    (b"Reduce", Skeleton::Reduce),
    (b"Scan", Skeleton::Scan),
    (b"MapReduce", Skeleton::MapReduce),
    (b"MapOverlap", Skeleton::MapOverlap),
    (b"MapPairs", Skeleton::MapPairs),
    (b"MapPairsReduce", Skeleton::MapPairsReduce),
    (b"Call", Skeleton::Call),
];

static VARIANTS: [(&[u8], Variant); 4] = [
    (b"sequential", Variant::Sequential),
    (b"chunked", Variant::Chunked),
    (b"cluster", Variant::Cluster),
    (b"lanes", Variant::Lanes),
];

fn skeletons() -> &'static [(&'static [u8], Skeleton)]
    ensures { map (λ entry. (entry.0.now, entry.1)) result.now ≡ skeleton_words }
{
    &SKELETONS
}

fn variants() -> &'static [(&'static [u8], Variant)]
    ensures { map (λ entry. (entry.0.now, entry.1)) result.now ≡ variant_words }
{
    &VARIANTS
}

fn skeleton_of(value: &Value) -> Result<Skeleton, TableFault>
    ensures { result ≡ skeleton_in (view value.now) }
{
    word(value, FieldName::Skeleton, skeletons())
}

fn variant_of(value: &Value) -> Result<Variant, TableFault>
    ensures { result ≡ variant_in (view value.now) }
{
    word(value, FieldName::Variant, variants())
}

/// A cluster call has at most one part for each rank.
fn most_parts_of(variant: Variant, ranks: u32) -> u32
    ensures { result ≡ most_parts ranks variant }
{
    match variant {
        Variant::Cluster => ranks,
        Variant::Sequential | Variant::Chunked | Variant::Lanes => MOST_PARTS,
    }
}

/// The rule that a JSON value is, in a table of this many ranks.
#[tactic(auto, unfolding(crate::specs::Table::rule_of))]
pub fn rule(value: &Value, ranks: u32) -> Result<Rule, TableFault>
    ensures { result ≡ rule_of ranks (view value.now) }
{
    check_fields(value, FieldName::Rules, &FIELDS)?;
    let skeleton = skeleton_of(value)?;
    let upto = upto(value)?;
    let variant = variant_of(value)?;
    let parts = number(value, FieldName::Parts, most_parts_of(variant, ranks), 1)?;
    Ok(Rule {
        skeleton,
        upto,
        variant,
        parts,
    })
}
