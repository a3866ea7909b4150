ghost use Rattle.std.specs.Prelude.{◌≡◌, ◌++◌, [], ◌∷◌, List, map, flat_map, slice_get, None, IfOk, OnOk};
ghost use Rattle.std.specs.Option.{option_map};
ghost use Rattle.sk_typing.specs.Inputs as taking;
ghost use Rattle.sk_typing.specs.TypingFaults.{least_of};
ghost use Rattle.sk_tree.specs.declared.declared.Declared.{Declared as DeclaredInput};
ghost use Rattle.sk_types.specs.Found.{declared_in};

use crate::kinds::same_type;
use crate::least::earlier;
use indexmap::IndexMap;
use sk_base::Ty;
use sk_names::Text;
use sk_tree::{Declared, Statement, What};
use sk_typing::{Fault, FaultKind};
use sqlite_items::Items;
use std::alloc::{AllocError, Global};
use std::marker::Model;

/// The inputs that were found so far, which contracts see as their list in text order. An input is found by its name in
/// constant time.
#[derive(Drop)]
pub(crate) struct Inputs<'a> {
    found: IndexMap<&'a [u8], (u8, Ty)>,
}

impl<'a> Model for Inputs<'a> {
    ghost Value = { List DeclaredInput };

    ghost view = { λ i. map declared_in i.found.entries };
}

impl<'a> Inputs<'a> {
    /// No inputs.
    pub(crate) fn new(alloc: Global) -> Inputs<'a>
        ensures { result ≡ [] }
    {
        Inputs {
            found: IndexMap::new(alloc),
        }
    }

    /// The kind and the type of the input of a name.
    fn find(&self, name: &[u8]) -> Option<(u8, Ty)>
        ensures { result ≡ option_map (λ input. (input.kind, input.ty)) (taking.input_named name.now self.now) }
    {
        self.found.get(name).copied()
    }

    /// One more input.
    fn add(&mut self, name: &'a [u8], kind: u8, ty: Ty) -> Result<(), AllocError>
        requires { taking.input_named name.now self.old ≡ None }
        ensures { OnOk result (self.new ≡ self.old ++ record { name = name.now; kind = kind; ty = ty } ∷ []) }
    {
        self.found.insert(name, (kind, ty))?;
        Ok(())
    }

    /// A copy of the input at an index.
    fn copy_at(&self, alloc: Global, index: usize) -> Result<Option<Declared>, AllocError>
        ensures { IfOk result (λ found. found ≡ slice_get self.now index) }
    {
        match self.found.get_index(index) {
            Some((name, declared)) => Ok(Some(Declared {
                name: Text::from_vec(Vec::from_slice(alloc, name)?),
                kind: declared.0,
                ty: declared.1,
            })),
            None => Ok(None),
        }
    }

    /// A copy of the inputs that were found.
    pub(crate) fn to_items(&self, alloc: Global) -> Result<Items<Declared>, AllocError>
        ensures { IfOk result (λ items. items ≡ self.now) }
    {
        let mut items = Items::new(alloc);
        let mut index = 0;
        'inputs: loop {
            match self.copy_at(alloc, index)? {
                Some(input) => {
                    items.push(input)?;
                    index += 1;
                }
                None => return Ok(items),
            }
        }
    }

    /// A container that takes an input, at its line, with the fault that is told of it.
    fn declare(
        &mut self,
        line: u32,
        name: &'a [u8],
        kind: u8,
        ty: Ty,
    ) -> Result<Option<Fault>, AllocError>
        ensures told { IfOk result (λ told. told ≡ least_of (taking.input_faults_after self.old
            (record { line = line; input = record { name = name.now; kind = kind; ty = ty } } ∷ []))) }
        ensures seen { OnOk result (self.new ≡ taking.distinct_after self.old
            (record { line = line; input = record { name = name.now; kind = kind; ty = ty } } ∷ [])) }
    {
        match self.find(name) {
            Some((first_kind, first_ty)) => {
                if first_kind == kind && same_type(first_ty, ty) {
                    Ok(None)
                } else {
                    Ok(Some(Fault::At(line, FaultKind::Mismatch)))
                }
            }
            None => {
                self.add(name, kind, ty)?;
                Ok(None)
            }
        }
    }
}

/// The fault that is told of the inputs of a statement, which are found afterwards.
#[cycle(taken)]
fn take_one<'a>(
    inputs: &mut Inputs<'a>,
    statement: &'a Statement,
) -> Result<Option<Fault>, AllocError>
    ensures told { IfOk result (λ told. told ≡ least_of (taking.input_faults_after inputs.old (taking.taken_of statement.now))) }
    ensures seen { OnOk result (inputs.new ≡ taking.distinct_after inputs.old (taking.taken_of statement.now)) }
{
    match &statement.what {
        What::Take(kind, ty, _, input) => {
            inputs.declare(statement.line, input.as_bytes(), *kind, *ty)
        }
        What::If(_, one, other) => {
            let first = take_inputs(inputs, one.as_slice())?;
            let second = take_inputs(inputs, other.as_slice())?;
            Ok(earlier(first, second))
        }
        What::For(_, _, _, body) => take_inputs(inputs, body.as_slice()),
        _ => Ok(None),
    }
}

/// The fault that is told of the inputs of statements, which are found afterwards.
#[cycle(taken)]
pub(crate) fn take_inputs<'a>(
    inputs: &mut Inputs<'a>,
    statements: &'a [Statement],
) -> Result<Option<Fault>, AllocError>
    ensures told { IfOk result (λ told. told ≡ least_of (taking.input_faults_after inputs.old (flat_map taking.taken_of statements.now))) }
    ensures seen { OnOk result (inputs.new ≡ taking.distinct_after inputs.old (flat_map taking.taken_of statements.now)) }
{
    let mut least = None;
    for next in statements {
        let told = take_one(inputs, next)?;
        least = earlier(least, told);
    }
    Ok(least)
}
