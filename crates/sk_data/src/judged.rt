ghost use Rattle.std.specs.Prelude.{◌≡◌, ◌≢◌, IfOk, IfErr, None, Some};
ghost use Rattle.sk_data.specs.RecordText.{fields_of};
ghost use Rattle.sk_data.specs.Records.{form_fault, given_by, shape_given};
ghost use Rattle.sk_data.specs.declared.fault.InputFault.TheVariants as fault;

use crate::fault::{InputFault, Memory};
use crate::given::Given;
use crate::numbers::read_values;
use crate::record::TextRecord;
use crate::sizes::read_shape;
use sk_base::Shape;
use sk_names::Text;
use sk_tree::Declared;
use std::alloc::{AllocError, Global};

/// What a record gives an input, or the fault of its shape or of its values. The record's name is not looked at.
pub fn read_given(
    alloc: Global,
    input: &Declared,
    row: u32,
    fields: &TextRecord<'_>,
) -> Result<Given, InputFault>
    ensures given { IfOk result (λ given. given ≡ given_by input.now (fields_of fields.now)) }
    ensures faultless { IfOk result (λ given. form_fault input.now row (fields_of fields.now) ≡ None) }
    ensures fault { IfErr result (λ told. told ≢ fault.Memory → form_fault input.now row (fields_of fields.now) ≡ Some told) }
{
    let Some(shape) = read_given_shape(alloc, input, fields)? else {
        return Err(InputFault::BadShape { row });
    };
    if fields.len() != shape.cells() as usize + 2 {
        return Err(InputFault::Count { row });
    }
    let cells = read_values(alloc, input.ty, row, fields)?;
    let name = copy_of(alloc, &input.name)?;
    Ok(Given { name, shape, cells })
}

/// The shape that a record gives an input.
fn read_given_shape(
    alloc: Global,
    input: &Declared,
    fields: &TextRecord<'_>,
) -> Result<Option<Shape>, Memory>
    ensures { IfOk result (λ shape. shape ≡ shape_given input.now (fields_of fields.now)) }
{
    let kind = input.kind;
    match fields.shape() {
        Some(text) => read_shape(alloc, text, kind),
        None => Ok(None),
    }
}

/// The same text once more.
pub fn copy_of(alloc: Global, text: &Text) -> Result<Text, AllocError>
    ensures { IfOk result (λ copy. copy ≡ text.now) }
{
    let bytes = Vec::from_slice(alloc, text.as_bytes())?;
    Ok(Text::from_vec(bytes))
}
