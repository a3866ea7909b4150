ghost use Rattle.std.specs.Prelude.{◌≡◌, [], IfOk, OnOk};
ghost use Rattle.std.specs.List.{list_any};
ghost use Rattle.std.specs.Option.{option_copied};
ghost use Rattle.sk_typing.specs.Inputs as taking;
ghost use Rattle.sk_typing.specs.Typing as typing;
ghost use Rattle.sk_typing.specs.TypingFaults.{least_of};

use crate::around::Scopes;
use crate::function::{functions_fault, is_main_header, names_main};
use crate::inputs::{Inputs, take_inputs};
use crate::least::earlier;
use sk_tree::{Function, Program};
use sk_typing::Fault;
use std::alloc::{AllocError, Global};

/// main, if there is one.
fn main_of(program: &Program) -> Option<&Function>
    ensures { option_copied result ≡ typing.main_of program.now }
{
    let functions = program.functions.as_slice();
    match functions.get(functions.len().saturating_sub(1)) {
        Some(function) => {
            if is_main_header(function) {
                Some(function)
            } else {
                None
            }
        }
        None => None,
    }
}

/// Whether a function before the last one is named main.
fn has_earlier_main(functions: &[Function]) -> bool
    ensures { result ≡ list_any typing.is_named_main (typing.earlier_functions functions.now) }
{
    names_main(&functions[..functions.len().saturating_sub(1)])
}

/// The fault that is told where there is no main, or one more.
fn main_fault(program: &Program) -> Option<Fault>
    ensures { result ≡ least_of (typing.main_faults program.now) }
{
    match main_of(program) {
        Some(_) => {
            if has_earlier_main(program.functions.as_slice()) {
                Some(Fault::NoMain)
            } else {
                None
            }
        }
        None => Some(Fault::NoMain),
    }
}

/// The fault that is told of the inputs of main, which are found afterwards.
fn input_fault<'a>(
    program: &'a Program,
    inputs: &mut Inputs<'a>,
) -> Result<Option<Fault>, AllocError>
    ensures told { IfOk result (λ told. told ≡ least_of (taking.input_faults_after inputs.old (typing.all_taken program.now))) }
    ensures seen { OnOk result (inputs.new ≡ taking.distinct_after inputs.old (typing.all_taken program.now)) }
{
    match main_of(program) {
        Some(function) => take_inputs(inputs, function.body.as_slice()),
        None => Ok(None),
    }
}

/// The fault that is told of a program, whose inputs are found afterwards.
pub(crate) fn program_fault<'a>(
    alloc: Global,
    program: &'a Program,
    inputs: &mut Inputs<'a>,
) -> Result<Option<Fault>, AllocError>
    requires { inputs.old ≡ [] }
    ensures told { IfOk result (λ told. told ≡ typing.least_fault program.now) }
    ensures seen { OnOk result (inputs.new ≡ typing.inputs_of program.now) }
{
    let mut scopes = Scopes::new(alloc);
    let functions = program.functions.as_slice();
    let walked = functions_fault(alloc, &mut scopes, functions, 0, functions)?;
    let taken = input_fault(program, inputs)?;
    Ok(earlier(earlier(walked, taken), main_fault(program)))
}
