//! What is chosen for a call: a variant and a number of parts. A call is written as its skeleton, its number of elements and
//! the variants that its plan offers, with blanks between.
use sk_base::Variant;
use sk_isa::Plan;
use sk_names::Name;
use sk_select::{choose, table};
use sk_tree::Skeleton;
use sqlite_items::Items;
use std::alloc::{AllocError, Global};
use std::str::from_utf8;

/// A call, by its plan and its number of elements.
#[derive(Drop)]
struct Call {
    plan: Plan,
    elements: u64,
}

/// What is chosen for a call by a tuning table.
pub fn chosen(alloc: Global, tuning: &[u8], call: &[u8]) -> Result<String, AllocError> {
    let Ok(tuning) = table(alloc, tuning) else {
        return String::from_str(alloc, "no table");
    };
    match read(alloc, call) {
        Some(call) => {
            let (variant, parts) = choose(&tuning, &call.plan, call.elements);
            format!(in alloc; "{variant:?} {parts}")
        }
        None => String::from_str(alloc, "no call"),
    }
}

/// The call that a text is, if it is one.
fn read(alloc: Global, text: &[u8]) -> Option<Call> {
    let text = from_utf8(text).ok()?;
    let (skeleton, rest) = text.split_once(' ')?;
    let (elements, variants) = rest.split_once(' ').unwrap_or((rest, ""));
    let plan = Plan {
        name: Name::from_slice(alloc, b"m").ok()?,
        skeleton: skeleton_of(skeleton)?,
        functions: Items::from_slice(alloc, &[0]).ok()?,
        elements: 1,
        variants: variants_of(alloc, variants)?,
    };
    Some(Call {
        plan,
        elements: elements.parse().ok()?,
    })
}

/// The skeleton with this name.
fn skeleton_of(word: &str) -> Option<Skeleton> {
    if word == "Map" {
        Some(Skeleton::Map)
    } else if word == "Reduce" {
        Some(Skeleton::Reduce)
    } else if word == "Scan" {
        Some(Skeleton::Scan)
    } else if word == "MapPairs" {
        Some(Skeleton::MapPairs)
    } else {
        None
    }
}

/// The variants with these names, with blanks between.
fn variants_of(alloc: Global, words: &str) -> Option<Items<Variant>> {
    let mut variants = Items::new(alloc);
    for word in words.split_whitespace() {
        variants.push(variant_of(word)?).ok()?;
    }
    Some(variants)
}

/// The variant with this name.
fn variant_of(word: &str) -> Option<Variant> {
    if word == "sequential" {
        Some(Variant::Sequential)
    } else if word == "chunked" {
        Some(Variant::Chunked)
    } else if word == "cluster" {
        Some(Variant::Cluster)
    } else if word == "lanes" {
        Some(Variant::Lanes)
    } else {
        None
    }
}
