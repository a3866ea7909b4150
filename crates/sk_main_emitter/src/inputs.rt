ghost use Rattle.std.specs.Prelude.{◌≡◌, ◌++◌, ◌∷◌, [], List, is_some, flat_map, OnOk, IfOk};
ghost use Rattle.sk_main_emitter.specs.Seen.{AreNames};
ghost use Rattle.sk_tree.specs.declared.declared.Declared.{Declared as DeclaredInput};
ghost use Rattle.sk_typing.specs.Inputs as taking;
ghost use Rattle.sk_typing.specs.Typing as typing;

use sk_base::Ty;
use sk_names::Text;
use sk_scopes::Scopes;
use sk_tree::{Declared, Function, Program, Statement, What};
use sqlite_items::Items;
use std::alloc::{AllocError, Global};
use std::marker::Model;

/// The inputs that were found so far, which contracts see as their list in text order. Whether one was found is known in
/// constant time.
#[derive(Drop)]
struct Inputs<'a> {
    names: Scopes<'a, u8>,
    found: Vec<Declared>,
}

impl<'a> Model for Inputs<'a> {
    ghost Value = { List DeclaredInput };

    ghost view = { λ s. s.found.items };

    ghost invariant = { λ s. AreNames s.names s.found.items };
}

impl<'a> Inputs<'a> {
    /// No inputs.
    fn new(alloc: Global) -> Inputs<'a>
        ensures { result ≡ [] }
    {
        Inputs {
            names: Scopes::new(alloc),
            found: Vec::new(alloc),
        }
    }

    /// A container that takes an input, which is one more where its name was not found before.
    fn add(&mut self, alloc: Global, name: &'a [u8], kind: u8, ty: Ty) -> Result<(), AllocError>
        ensures { OnOk result (self.new ≡ taking.distinct_after self.old
            (record { line = 0; input = record { name = name.now; kind = kind; ty = ty } } ∷ [])) }
    {
        if self.has(name) {
            Ok(())
        } else {
            self.push(alloc, name, kind, ty)?;
            Ok(())
        }
    }

    /// Whether an input of that name was found.
    fn has(&self, name: &[u8]) -> bool
        ensures { result ≡ is_some (taking.input_named name.now self.now) }
    {
        self.names.find(name).is_some()
    }

    /// One more input, whose name was not found before.
    fn push(&mut self, alloc: Global, name: &'a [u8], kind: u8, ty: Ty) -> Result<(), AllocError>
        ensures { OnOk result (self.new ≡ self.old ++ record { name = name.now; kind = kind; ty = ty } ∷ []) }
    {
        let text = Text::from_vec(Vec::from_slice(alloc, name)?);
        self.found.push(Declared {
            name: text,
            kind,
            ty,
        })?;
        match self.names.declare(name, kind) {
            Ok(()) => Ok(()),
            Err(_) => {
                self.found.pop();
                Err(AllocError)
            }
        }
    }

    /// The inputs that were found.
    fn into_items(self) -> Items<Declared>
        ensures { result ≡ self.entry }
    {
        Items::from_vec(self.found)
    }
}

/// Finds the inputs of a statement.
#[cycle(taken)]
fn take_one<'a>(
    alloc: Global,
    inputs: &mut Inputs<'a>,
    statement: &'a Statement,
) -> Result<(), AllocError>
    ensures { OnOk result (inputs.new ≡ taking.distinct_after inputs.old (taking.taken_of statement.now)) }
{
    match &statement.what {
        What::Take(kind, ty, _, input) => inputs.add(alloc, input.as_bytes(), *kind, *ty),
        What::If(_, one, other) => {
            take_all(alloc, inputs, one.as_slice())?;
            take_all(alloc, inputs, other.as_slice())
        }
        What::For(_, _, _, body) => take_all(alloc, inputs, body.as_slice()),
        _ => Ok(()),
    }
}

/// Finds the inputs of statements.
#[cycle(taken)]
fn take_all<'a>(
    alloc: Global,
    inputs: &mut Inputs<'a>,
    statements: &'a [Statement],
) -> Result<(), AllocError>
    ensures { OnOk result (inputs.new ≡ taking.distinct_after inputs.old (flat_map taking.taken_of statements.now)) }
{
    for next in statements {
        take_one(alloc, inputs, next)?;
    }
    Ok(())
}

/// Whether a function is headed `int main()`.
fn is_main_header(function: &Function) -> bool
    ensures { result ≡ typing.is_main_header function.now }
{
    function.name.as_bytes() == b"main".as_slice()
        && function.ret == Ty::Int
        && function.params.is_empty()
}

/// The statements of main, and none where there is no main.
fn main_body(program: &Program) -> &[Statement]
    ensures { result.now ≡ typing.main_body program.now }
{
    match program.functions.as_slice().last() {
        Some(function) => {
            if is_main_header(function) {
                function.body.as_slice()
            } else {
                &[]
            }
        }
        None => &[],
    }
}

/// The inputs of a program.
pub(crate) fn taken_inputs(alloc: Global, program: &Program) -> Result<Items<Declared>, AllocError>
    ensures { IfOk result (λ inputs. inputs ≡ typing.inputs_of program.now) }
{
    let mut inputs = Inputs::new(alloc);
    take_all(alloc, &mut inputs, main_body(program))?;
    Ok(inputs.into_items())
}
