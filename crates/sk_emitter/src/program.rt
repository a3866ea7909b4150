ghost use Rattle.std.specs.Prelude.{◌≡◌, map, replicate, Option, None, false, slice_get, length, IfOk};
ghost use Rattle.sk_scheme.specs.Plans as plans;
ghost use Rattle.sk_tree.specs.Functions.{body_of};

use crate::functions::compile_all;
use crate::plans::plans;
use sk_base::Ty;
use sk_isa::{Code, Object, Signature};
use sk_names::Name;
use sk_tree::{Function, Operator, Program, Statement};
use sqlite_items::Items;
use std::alloc::{AllocError, Global};

/// The names of functions.
pub fn function_names(alloc: Global, functions: &[Function]) -> Result<Items<Name>, AllocError>
    ensures { IfOk result (λ names. names ≡ map (λ function. function.name) functions.now) }
{
    let mut names = Items::new(alloc);
    for function in functions {
        names.push(Name::from_slice(alloc, function.name.as_bytes())?)?;
    }
    Ok(names)
}

/// No function is known never to trap, or to be an operator.
pub fn no_marks(
    alloc: Global,
    count: usize,
) -> Result<(Items<bool>, Items<Option<Operator>>), AllocError>
    ensures safe { IfOk result (λ marks. marks.0 ≡ replicate count false) }
    ensures operators { IfOk result (λ marks. marks.1 ≡ replicate count None) }
{
    let safe = vec![in alloc; false; count]?;
    let operators = vec![in alloc; None; count]?;
    Ok((Items::from_vec(safe), Items::from_vec(operators)))
}

/// The statements of a function, and none where it is not there.
pub fn body(functions: &[Function], place: usize) -> &[Statement]
    ensures { result.now ≡ body_of (slice_get functions.now place) }
{
    match functions.get(place) {
        Some(function) => function.body.as_slice(),
        None => &[],
    }
}

/// The code of main, which is not compiled yet.
fn no_code(alloc: Global) -> Code
    ensures { result ≡ plans.no_code }
{
    Code {
        instrs: Items::new(alloc),
        slots: 0,
        depth: 0,
    }
}

/// Main's: it takes nothing and gives an int.
fn main_signature(alloc: Global) -> Signature
    ensures { result ≡ plans.main_signature }
{
    Signature {
        ret: Ty::Int,
        params: Items::new(alloc),
        slots: Items::new(alloc),
    }
}

/// The compiled form of a program whose functions alone are compiled: main's code is empty, no function is marked, and each
/// plan offers to be run sequentially alone. It is taken of every program: where a name is not in scope, or is no
/// value, nothing is compiled. A name is found in constant time, so the cost is that of the program's length.
///
/// # Errors
///
/// Want of memory, which is also the answer where a code has 2^32 instructions, slots or values on its stack, or a
/// declaration's number of elements is 2^32, or more.
pub fn compiled(alloc: Global, program: &Program) -> Result<Object, AllocError>
    ensures { IfOk result (λ object. object ≡ plans.functions_object program.now) }
{
    let functions = program.functions.as_slice();
    let count = functions.len().saturating_sub(1);
    let before = &functions[..count];
    let made = compile_all(alloc, before)?;
    let mut signatures = made.signatures;
    signatures.push(main_signature(alloc))?;
    let (safe, operators) = no_marks(alloc, count)?;
    Ok(Object {
        functions: made.codes,
        signatures,
        safe,
        operators,
        instances: plans(alloc, &made.names, body(functions, count))?,
        main: no_code(alloc),
        inputs: Items::new(alloc),
        containers: Items::new(alloc),
        names: function_names(alloc, before)?,
    })
}
