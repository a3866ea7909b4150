ghost use Rattle.std.specs.Prelude.{◌≡◌, ◌≢◌, ◌^◌, ◌<◌, ◌≤◌, IfOk, IfErr, None, Some, length, slice_index_or, [], drop};
ghost use Rattle.std.specs.List.{filter_map};
ghost use Rattle.sk_data.specs.Fields.{fields_at};
ghost use Rattle.sk_data.specs.RecordText.{fields_of};
ghost use Rattle.sk_data.specs.Records.{bound_of, number_fault, value_of, values_given};
ghost use Rattle.sk_data.specs.declared.fault.InputFault.TheVariants as fault;

use crate::cells::Cells;
use crate::fault::InputFault;
use crate::field::read_field;
use crate::number::Number;
use crate::record::TextRecord;
use sk_base::{Cell, Ty};
use std::alloc::Global;

/// The cells that the fields behind name and shape write, or the first of these fields that is no number of the type.
/// The cells take eight bytes each.
pub fn read_values(
    alloc: Global,
    ty: Ty,
    row: u32,
    fields: &TextRecord<'_>,
) -> Result<Cells, InputFault>
    requires { (2 ≤ length (fields_of fields.now)) × (length (fields_of fields.now) < 2 ^ 32) }
    ensures cells { IfOk result (λ cells. cells ≡ filter_map (value_of ty) (values_given (fields_of fields.now))) }
    ensures faultless { IfOk result (λ cells. number_fault ty row (values_given (fields_of fields.now)) ≡ None) }
    ensures fault { IfErr result (λ told. told ≢ fault.Memory → number_fault ty row (values_given (fields_of fields.now)) ≡ Some told) }
{
    let mut cells = Vec::with_capacity(alloc, fields.len() - 2)?;
    let mut rest = fields.values();
    'values: for at in 2..fields.len() {
        let (value, behind) = read_value(rest, ty);
        match value {
            Some(value) => cells.push(value)?,
            None => {
                return Err(InputFault::Number {
                    row,
                    field: at as u32 + 1,
                });
            }
        }
        rest = behind;
    }
    Ok(Cells::from_vec(cells))
}

/// The value of the field in front of a text, and what is behind it.
fn read_value(text: &[u8], ty: Ty) -> (Option<Cell>, &[u8])
    ensures value { result.0 ≡ value_of ty (slice_index_or (fields_at text.now) 0 []) }
    ensures rest { 1 < length (fields_at text.now) → fields_at result.1.now ≡ drop 1 (fields_at text.now) }
{
    let mut number = Number::Empty;
    let ending = read_field(text, &mut number);
    (number.value(bound(ty)), ending.rest)
}

/// Values of the type are at least `-bound`, and below `bound`.
fn bound(ty: Ty) -> u64
    ensures value { result ≡ bound_of ty }
    ensures range { (0 < result) × (result ≤ 2 ^ 63) }
{
    match ty {
        Ty::Int => 1 << 31,
        Ty::Long => 1 << 63,
    }
}
