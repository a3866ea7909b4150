ghost use Rattle.std.specs.Prelude.{◌≡◌, ◌<◌, ◌+◌, ◌^◌, length, IfOk, OnOk};
ghost use Rattle.sk_types.specs.Numbers.{FindsAll, NotesOne, NotesFrom, noted};

use indexmap::IndexMap;
use sk_tree::Function;
use std::alloc::{AllocError, Global};

/// Functions' numbers by their names.
pub(crate) type FunctionNumbers = IndexMap<Vec<u8>, u32>;

/// A name with its number, unless it has one.
fn note(
    alloc: Global,
    numbers: &mut FunctionNumbers,
    name: &[u8],
    number: u32,
) -> Result<(), AllocError>
    ensures { OnOk result (NotesOne numbers.old numbers.new name.now number) }
{
    if numbers.contains_key(name) {
        return Ok(());
    }
    numbers.insert(Vec::from_slice(alloc, name)?, number)?;
    Ok(())
}

/// The names of functions with their numbers from one on, each unless it has one.
fn note_all(
    alloc: Global,
    numbers: &mut FunctionNumbers,
    number: u32,
    functions: &[Function],
) -> Result<(), AllocError>
    requires { number + length functions.now < 2 ^ 32 }
    ensures { OnOk result (NotesFrom numbers.old numbers.new number functions.now) }
{
    match functions {
        [] => Ok(()),
        [first, rest @ ..] => {
            note(alloc, numbers, first.name.as_bytes(), number)?;
            note_all(alloc, numbers, number + 1, rest)
        }
    }
}

/// The number of each name's first function. More functions than numbers count as want of memory.
pub(crate) fn function_numbers(
    alloc: Global,
    functions: &[Function],
) -> Result<FunctionNumbers, AllocError>
    ensures { IfOk result (λ numbers. FindsAll numbers functions.now) }
{
    if functions.len() >= u32::MAX as usize {
        return Err(AllocError);
    }
    let mut numbers = IndexMap::new(alloc);
    note_all(alloc, &mut numbers, 0, functions)?;
    Ok(numbers)
}

/// The number that a name has.
pub(crate) fn number_in(numbers: &FunctionNumbers, name: &[u8]) -> Option<u32>
    ensures { result ≡ noted numbers.now name.now }
{
    numbers.get(name).copied()
}
