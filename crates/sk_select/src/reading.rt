ghost use Rattle.std.specs.Prelude.{◌≡◌, ◌≢◌, IfOk, IfErr, Ok, Err};
ghost use Rattle.sk_select.specs.Table.{IsRead, rules_in, table_of};
ghost use Rattle.sk_select.specs.declared.fault.TableFault.TheVariants as fault;
ghost use Rattle.serde_json.specs.Data.{Data};
ghost use Rattle.serde_json.specs.View.{view};

use crate::fault::{FieldName, TableFault};
use crate::field::{check_fields, number};
use crate::rule::rule;
use crate::tuning::{DEFAULT_LINEAGE, DEFAULT_RANKS, DEFAULT_TILE, MOST_CELLS, Rule, Tuning};
use serde_json::Value;
use sqlite_items::Items;
use std::alloc::Global;

const MOST_RANKS: u32 = 16;

const MOST_TILE: u32 = 65536;

const MOST_LINEAGE: u32 = 65536;

const MOST_RULES: usize = 1024;

static FIELDS: [FieldName; 5] = [
    FieldName::Ranks,
    FieldName::Capacity,
    FieldName::Tile,
    FieldName::Lineage,
    FieldName::Rules,
];

/// Reads a tuning table. Of several faults the first one is told, in the order that `table_of` gives. Takes time in
/// proportion to the bytes, but for the order of keys in an object.
pub fn table(alloc: Global, bytes: &[u8]) -> Result<Tuning, TableFault>
    ensures tuned { IfOk result (λ tuning. (value : Data)
        × IsRead bytes.now value × (table_of value ≡ Ok tuning)) }
    ensures json { result ≡ Err fault.Json → (value : Data) → ¬ IsRead bytes.now value }
    ensures refused { IfErr result (λ told. told ≢ fault.Json → told ≢ fault.Memory
        → (value : Data) × IsRead bytes.now value × (table_of value ≡ Err told)) }
{
    match Value::from_slice(alloc, bytes) {
        Ok(value) => tuning(alloc, &value),
        Err(error) if error.is_memory() => Err(TableFault::Memory),
        Err(_) => Err(TableFault::Json),
    }
}

/// The table that a JSON value is.
#[tactic(auto, unfolding(crate::specs::Table::table_of))]
fn tuning(alloc: Global, value: &Value) -> Result<Tuning, TableFault>
    ensures tuned { IfOk result (λ tuning. table_of (view value.now) ≡ Ok tuning) }
    ensures refused { IfErr result
        (λ told. told ≢ fault.Memory → table_of (view value.now) ≡ Err told) }
{
    check_fields(value, FieldName::Table, &FIELDS)?;
    let ranks = number(value, FieldName::Ranks, MOST_RANKS, DEFAULT_RANKS)?;
    let capacity = number(value, FieldName::Capacity, MOST_CELLS, MOST_CELLS)?;
    let tile = number(value, FieldName::Tile, MOST_TILE, DEFAULT_TILE)?;
    let lineage = number(value, FieldName::Lineage, MOST_LINEAGE, DEFAULT_LINEAGE)?;
    let rules = rules(alloc, value, ranks)?;
    Ok(Tuning {
        ranks,
        capacity,
        tile,
        lineage,
        rules,
    })
}

/// The rules of a table with this many ranks.
#[tactic(auto, unfolding(crate::specs::Table::rules_in))]
fn rules(alloc: Global, table: &Value, ranks: u32) -> Result<Items<Rule>, TableFault>
    ensures listed { IfOk result (λ rules. rules_in ranks (view table.now) ≡ Ok rules) }
    ensures refused { IfErr result
        (λ told. told ≢ fault.Memory → rules_in ranks (view table.now) ≡ Err told) }
{
    let name = FieldName::Rules;
    let Some(field) = table.get(name.word()) else {
        return Ok(Items::new(alloc));
    };
    let Some(values) = field.as_array() else {
        return Err(TableFault::Field { name });
    };
    if values.len() > MOST_RULES {
        return Err(TableFault::Limit {
            name,
            value: values.len() as u64,
        });
    }
    let mut rules = Vec::with_capacity(alloc, values.len())?;
    for value in values {
        rules.push(rule(value, ranks)?)?;
    }
    Ok(Items::from_vec(rules))
}
