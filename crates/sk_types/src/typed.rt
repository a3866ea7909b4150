ghost use Rattle.std.specs.Prelude.{◌≡◌, IfOk, IfErr};
ghost use Rattle.sk_names.specs.Bytes.{same_bytes};
ghost use Rattle.sk_typing.specs.Typing as typing;
ghost use Rattle.sk_tree.specs.declared.tree.Program.{Program as ProgramTree};
ghost use Rattle.sk_tree.specs.contracts.tree.Program as contract;
ghost use Rattle.sk_types.specs.Answers.{TellsLeast};
ghost use Rattle.sk_types.specs.Numbers.{FindsAll, number_of};

use crate::fault::{TypeFault, told};
use crate::inputs::Inputs;
use crate::numbers::{FunctionNumbers, function_numbers, number_in};
use crate::program::program_fault;
use sk_names::Name;
use sk_tree::{Declared, Program};
use sqlite_items::Items;
use std::alloc::Global;
use std::marker::Model;

/// A program that keeps the language's rules of names and types, which contracts see as the program.
#[derive(Drop)]
pub struct Typed {
    program: Program,
    numbers: FunctionNumbers,
    inputs: Items<Declared>,
}

impl Model for Typed {
    ghost Value = { ProgramTree };

    ghost coded = { contract.the_row.coded };

    ghost view = { λ t. t.program };

    ghost invariant = { λ t. typing.IsTyped t.program × (t.inputs ≡ typing.inputs_of t.program) × FindsAll t.numbers t.program.functions };
}

impl Typed {
    /// The program itself.
    pub fn program(&self) -> &Program
        ensures same { result.now ≡ self.now }
        ensures typed { typing.IsTyped self.now }
    {
        &self.program
    }

    /// The number of the function of that name in text order, from 0; none exactly where there is no such function. A
    /// program that is typed has each name at most once. It takes constant time.
    pub fn function(&self, name: &Name) -> Option<u32>
        ensures { result ≡ number_of name.now self.now.functions }
    {
        number_in(&self.numbers, name.as_bytes())
    }

    /// The containers that take an input: each name once, in the text order of its first declaration.
    pub fn inputs(&self) -> &[Declared]
        ensures { result.now ≡ typing.inputs_of self.now }
    {
        self.inputs.as_slice()
    }
}

/// The inputs of a program, or the fault that is told of it.
fn inputs_or_fault(alloc: Global, program: &Program) -> Result<Items<Declared>, TypeFault>
    ensures inputs { IfOk result (λ inputs. inputs ≡ typing.inputs_of program.now) }
    ensures typed { IfOk result (λ inputs. typing.IsTyped program.now) }
    ensures refused { IfErr result (λ fault. TellsLeast fault (typing.least_fault program.now)) }
{
    let mut found = Inputs::new(alloc);
    match program_fault(alloc, program, &mut found)? {
        Some(fault) => Err(told(fault)),
        None => Ok(found.to_items(alloc)?),
    }
}

/// Checks a program's names and types. On a refusal the program is dropped. Linear in the program.
pub fn check(alloc: Global, program: Program) -> Result<Typed, TypeFault>
    ensures same { IfOk result (λ typed. typed ≡ program) }
    ensures typed { IfOk result (λ typed. typing.IsTyped program) }
    ensures refused { IfErr result (λ fault. TellsLeast fault (typing.least_fault program)) }
{
    let inputs = inputs_or_fault(alloc, &program)?;
    let numbers = function_numbers(alloc, program.functions.as_slice())?;
    Ok(Typed {
        program,
        numbers,
        inputs,
    })
}
