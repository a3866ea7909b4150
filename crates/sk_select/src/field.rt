ghost use Rattle.std.specs.Prelude.{◌≡◌, map, string_bytes};
ghost use Rattle.std.specs.List.{list_all};
ghost use Rattle.std.specs.BTreeMap.{keys};
ghost use Rattle.sk_select.specs.Fields.{whole_of, fields_checked, is_field, number_in, upto_in, word_in};
ghost use Rattle.serde_json.specs.View.{view};

use crate::fault::{FieldName, TableFault};
use serde_json::{Map, Value};
use sk_grammar::meant;

/// The whole numbers of a table are below this.
const END_OF_NUMBERS: u64 = 1 << 63;

/// The number that a JSON value is, where it is whole and in range.
fn whole(value: &Value) -> Option<u64>
    ensures { result ≡ whole_of (view value.now) }
{
    let number = value.as_u64()?;
    if number < END_OF_NUMBERS {
        Some(number)
    } else {
        None
    }
}

fn is_known(key: &str, fields: &[FieldName]) -> bool
    ensures { result ≡ is_field fields.now key.now }
{
    fields.iter().any(|field| field.word() == key)
}

fn are_known(members: &Map<String, Value>, fields: &[FieldName]) -> bool
    ensures { result ≡ list_all (λ key. is_field fields.now (string_bytes key)) (keys members.now) }
{
    members.keys().all(|key| is_known(key.as_str(), fields))
}

/// Whether the value is an object with these fields alone. A value that is none is a fault of the field `whole`.
#[tactic(auto, unfolding(crate::specs::Fields::fields_checked))]
pub fn check_fields(value: &Value, whole: FieldName, fields: &[FieldName]) -> Result<(), TableFault>
    ensures { result ≡ fields_checked whole fields.now (view value.now) }
{
    let Some(members) = value.as_object() else {
        return Err(TableFault::Field { name: whole });
    };
    if are_known(members, fields) {
        Ok(())
    } else {
        Err(TableFault::Field {
            name: FieldName::Unknown,
        })
    }
}

/// The number of a field between 1 and `most`, or `default` where the field is absent.
#[tactic(auto, unfolding(crate::specs::Fields::number_in))]
pub fn number(value: &Value, name: FieldName, most: u32, default: u32) -> Result<u32, TableFault>
    ensures { result ≡ number_in name most default (view value.now) }
{
    let Some(field) = value.get(name.word()) else {
        return Ok(default);
    };
    let number = whole(field).ok_or(TableFault::Field { name })?;
    if 1 <= number && number <= most as u64 {
        Ok(number as u32)
    } else {
        Err(TableFault::Limit {
            name,
            value: number,
        })
    }
}

/// The number of elements up to which a rule goes.
#[tactic(auto, unfolding(crate::specs::Fields::upto_in))]
pub fn upto(value: &Value) -> Result<u64, TableFault>
    ensures { result ≡ upto_in (view value.now) }
{
    let name = FieldName::Upto;
    value
        .get(name.word())
        .and_then(whole)
        .ok_or(TableFault::Field { name })
}

/// What the word of a field stands for.
#[tactic(auto, unfolding(crate::specs::Fields::word_in))]
pub fn word<T: Copy>(value: &Value, name: FieldName, words: &[(&[u8], T)]) -> Result<T, TableFault>
    ensures { result
        ≡ word_in name (map (λ entry. (entry.0.now, entry.1)) words.now) (view value.now) }
{
    let fault = TableFault::Field { name };
    let text = value.get(name.word()).and_then(Value::as_str).ok_or(fault)?;
    meant(words, text.as_bytes()).ok_or(fault)
}
