ghost use Rattle.std.specs.Prelude.{◌≡◌, ◌≢◌, ◌<◌, ◌≤◌, ◌^◌, IfOk, IfErr, OnOk, Ok, Err, None, Some, [], length};
ghost use Rattle.sk_data.specs.Fields.{longest_shape};
ghost use Rattle.sk_data.specs.Held.{IsGivenBy};
ghost use Rattle.std.specs.List.{AllZip};
ghost use Rattle.sk_data.specs.Reading.{NamesFit};
ghost use Rattle.sk_data.specs.Suits.{Suits};
ghost use Rattle.sk_data.specs.Records.{HaveDistinctNames, first_fault, inputs_of, records_of};
ghost use Rattle.sk_data.specs.declared.fault.InputFault.TheVariants as fault;

use crate::fault::InputFault;
use crate::given::Given;
use crate::inputs::Inputs;
use crate::kept::Kept;
use crate::record::{Room, read_record};
use crate::records::{at_record, without_mark};
use sk_tree::Declared;
use std::alloc::Global;

/// A shape of 255 sizes of eight digits, with a letter between two.
const LONGEST_SHAPE: usize = 255 * 9 - 1;

/// What the records of a text give the declared inputs, in the order of their declarations, or the first fault. Records
/// of other names are passed over.
///
/// Takes time in proportion to the bytes. Besides the text it takes eight bytes for each cell, and, whatever the text, room
/// for two names.
pub fn input(alloc: Global, bytes: &[u8], declared: &[Declared]) -> Result<Vec<Given>, InputFault>
    requires names { HaveDistinctNames declared.now }
    requires size { length bytes.now < 2 ^ 31 }
    ensures given { IfOk result (λ given. inputs_of declared.now (records_of bytes.now) ≡ Ok given.items) }
    ensures suited { IfOk result (λ given. AllZip Suits declared.now given.items) }
    ensures fault { IfErr result (λ told. told ≢ fault.Memory → inputs_of declared.now (records_of bytes.now) ≡ Err told) }
{
    read_inputs(alloc, bytes, declared)
}

fn read_inputs(alloc: Global, bytes: &[u8], declared: &[Declared]) -> Result<Vec<Given>, InputFault>
    requires names { HaveDistinctNames declared.now }
    requires size { length bytes.now < 2 ^ 31 }
    ensures given { IfOk result (λ given. inputs_of declared.now (records_of bytes.now) ≡ Ok given.items) }
    ensures fault { IfErr result (λ told. told ≢ fault.Memory → inputs_of declared.now (records_of bytes.now) ≡ Err told) }
{
    let mut inputs = Inputs::new(alloc, declared)?;
    take_all(alloc, bytes, longest(declared), &mut inputs)?;
    inputs.finish(alloc)
}

/// The bytes of the longest text of a name or a shape.
fn longest(declared: &[Declared]) -> usize
    ensures names { NamesFit declared.now result }
    ensures shapes { longest_shape ≤ result }
{
    let mut most = LONGEST_SHAPE;
    'inputs: for input in declared {
        most = room_for(most, input);
    }
    most
}

/// As many bytes, or those of an input's name, if they are more.
fn room_for(most: usize, input: &Declared) -> usize
    ensures { (most ≤ result) × (length input.now.name ≤ result) }
{
    most.max(input.name.as_bytes().len())
}

/// Takes the records of a text one after another, up to the first one with a fault.
fn take_all(
    alloc: Global,
    bytes: &[u8],
    most: usize,
    inputs: &mut Inputs<'_>,
) -> Result<(), InputFault>
    requires none { IsGivenBy [] inputs.old }
    requires size { length bytes.now < 2 ^ 31 }
    requires names { NamesFit inputs.old.declared most }
    requires shapes { longest_shape ≤ most }
    ensures declared { inputs.new.declared ≡ inputs.old.declared }
    ensures given { OnOk result (IsGivenBy (records_of bytes.now) inputs.new) }
    ensures faultless { OnOk result (first_fault inputs.old.declared [] (records_of bytes.now) ≡ None) }
    ensures fault { IfErr result (λ told. told ≢ fault.Memory → first_fault inputs.old.declared [] (records_of bytes.now) ≡ Some told) }
{
    let mut room = Room {
        name: Kept::new(alloc, most)?,
        shape: Kept::new(alloc, most)?,
    };
    let mut rest = at_record(without_mark(bytes));
    let mut row = 0u32;
    'records: while !rest.is_empty() {
        row += 1;
        let record = read_record(rest, room);
        match inputs.take(alloc, row, &record) {
            Ok(()) => {
                rest = at_record(record.rest());
                room = record.into_room();
            }
            Err(fault) => return Err(fault),
        }
    }
    Ok(())
}
