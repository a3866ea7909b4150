//! What is told of a text: `json`, `field NAME` or `limit NAME NUMBER`; or the ranks, the capacity, the tile and the lineage,
//! and behind a comma each rule with its skeleton, its bound, its variant and its parts.
use sk_select::{Rule, TableFault, Tuning, table};
use std::alloc::{AllocError, Global};
use std::fmt::Write;

/// Adds a rule.
fn push_rule(out: &mut String, rule: &Rule) -> Result<(), AllocError> {
    let Rule {
        skeleton,
        upto,
        variant,
        parts,
    } = *rule;
    write!(out, ", {skeleton:?} {upto} {variant:?} {parts}")
}

/// What a tuning table says.
pub fn shown(alloc: Global, tuning: &Tuning) -> Result<String, AllocError> {
    let (ranks, capacity) = (tuning.ranks, tuning.capacity);
    let (tile, lineage) = (tuning.tile, tuning.lineage);
    let mut out = format!(in alloc; "{ranks} {capacity} {tile} {lineage}")?;
    for rule in tuning.rules.as_slice() {
        push_rule(&mut out, rule)?;
    }
    Ok(out)
}

/// What is told of a fault.
fn told(alloc: Global, fault: TableFault) -> Result<String, AllocError> {
    match fault {
        TableFault::Json => String::from_str(alloc, "json"),
        TableFault::Field { name } => {
            let word = name.word();
            format!(in alloc; "field {word}")
        }
        TableFault::Limit { name, value } => {
            let word = name.word();
            format!(in alloc; "limit {word} {value}")
        }
        TableFault::Memory => String::from_str(alloc, "memory"),
    }
}

/// What is told of these bytes.
pub fn outcome(alloc: Global, bytes: &[u8]) -> Result<String, AllocError> {
    match table(alloc, bytes) {
        Ok(tuning) => shown(alloc, &tuning),
        Err(fault) => told(alloc, fault),
    }
}
