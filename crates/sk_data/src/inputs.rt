ghost use Rattle.std.specs.Prelude.{◌≡◌, ◌≢◌, ◌++◌, ◌∷◌, [], List, IfOk, IfErr, OnOk, None, Some, Ok, Err, ◌<◌, length, map, position, slice_index_or, slice_set};
ghost use Rattle.sk_data.specs.Held.{IsGivenBy, given_in};
ghost use Rattle.sk_data.specs.Reading.{NamesFit};
ghost use Rattle.sk_data.specs.RecordText.{fields_of, most_of};
ghost use Rattle.sk_data.specs.Records.{HaveDistinctNames, Record, given_to, is_named, record_fault};
ghost use Rattle.sk_data.specs.declared.fault.InputFault.TheVariants as fault;

use crate::fault::InputFault;
use crate::given::Given;
use crate::judged::{copy_of, read_given};
use crate::names::Names;
use crate::record::TextRecord;
use sk_tree::Declared;
use std::alloc::{AllocError, Global};
use std::marker::Model;

/// The declared inputs with what the records so far gave them.
#[derive(Drop)]
pub struct Inputs<'a> {
    declared: &'a [Declared],
    names: Names<'a>,
    given: Vec<Option<Given>>,
}

impl<'a> Model for Inputs<'a> {
    ghost use Rattle.std.specs.Prelude.{◌≡◌, length, map};
    ghost use Rattle.sk_data.specs.Held.{Held};
    ghost use Rattle.sk_data.specs.Records.{HaveDistinctNames};

    ghost Value = { Held };

    ghost view = { λ s. record { declared = s.declared.now; given = s.given.items } };

    ghost invariant = { λ s. (s.names ≡ map (λ input. input.name) s.declared.now)
        × (length s.given.items ≡ length s.declared.now) × HaveDistinctNames s.declared.now };
}

impl<'a> Inputs<'a> {
    /// Inputs that were given nothing.
    pub fn new(alloc: Global, declared: &'a [Declared]) -> Result<Inputs<'a>, AllocError>
        requires { HaveDistinctNames declared.now }
        ensures declared { IfOk result (λ inputs. inputs.declared ≡ declared.now) }
        ensures given { IfOk result (λ inputs. IsGivenBy [] inputs) }
    {
        let names = Names::new(alloc, declared)?;
        let given = nothing(alloc, declared)?;
        Ok(Inputs {
            declared,
            names,
            given,
        })
    }

    /// Takes the next record, whose number is `row`, or tells its fault, after which nothing was taken.
    pub fn take(
        &mut self,
        alloc: Global,
        row: u32,
        fields: &TextRecord<'_>,
    ) -> Result<(), InputFault>
        requires { NamesFit self.old.declared (most_of fields.now) }
        ensures declared { self.new.declared ≡ self.old.declared }
        ensures taken { OnOk result ((earlier : List Record) → IsGivenBy earlier self.old
            → IsGivenBy (earlier ++ fields_of fields.now ∷ []) self.new) }
        ensures faultless { OnOk result ((earlier : List Record) → IsGivenBy earlier self.old
            → record_fault self.old.declared earlier row (fields_of fields.now) ≡ None) }
        ensures fault { IfErr result (λ told. told ≢ fault.Memory → (earlier : List Record) → IsGivenBy earlier self.old
            → record_fault self.old.declared earlier row (fields_of fields.now) ≡ Some told) }
    {
        let Some(place) = self.place(fields) else {
            return Ok(());
        };
        let input = &self.declared[place];
        if self.given[place].is_some() {
            let name = copy_of(alloc, &input.name)?;
            return Err(InputFault::Doubled { name });
        }
        match read_given(alloc, input, row, fields) {
            Ok(given) => {
                self.given[place] = Some(given);
                Ok(())
            }
            Err(fault) => Err(fault),
        }
    }

    /// The place of the input that a record names.
    fn place(&self, fields: &TextRecord<'_>) -> Option<usize>
        requires { NamesFit self.now.declared (most_of fields.now) }
        ensures { result ≡ position (λ input. is_named input.name (fields_of fields.now)) self.now.declared }
    {
        match fields.name() {
            Some(name) => self.names.place(name),
            None => None,
        }
    }

    /// What each input was given, or the first one that was given nothing.
    pub fn finish(self, alloc: Global) -> Result<Vec<Given>, InputFault>
        ensures given { IfOk result (λ given. (all : List Record) → IsGivenBy all self.entry → given_to all self.entry.declared ≡ Ok given.items) }
        ensures absent { IfErr result (λ told. told ≢ fault.Memory → (all : List Record) → IsGivenBy all self.entry
            → given_to all self.entry.declared ≡ Err told) }
    {
        let Inputs {
            declared,
            given,
            ..
        } = self;
        all_given(alloc, declared, given)
    }
}

/// A slot with nothing for each input.
fn nothing(alloc: Global, declared: &[Declared]) -> Result<Vec<Option<Given>>, AllocError>
    ensures { IfOk result (λ given. given.items ≡ map (λ input. None) declared.now) }
{
    declared.iter().map(|_| None).collect(alloc)
}

/// What is in each slot, or the first input whose slot has nothing.
fn all_given(
    alloc: Global,
    declared: &[Declared],
    mut given: Vec<Option<Given>>,
) -> Result<Vec<Given>, InputFault>
    requires { length given.items ≡ length declared.now }
    ensures given { IfOk result (λ all. given_in declared.now given.items ≡ Ok all.items) }
    ensures absent { IfErr result (λ told. told ≢ fault.Memory → given_in declared.now given.items ≡ Err told) }
{
    let mut all = Vec::with_capacity(alloc, declared.len())?;
    'inputs: for at in 0..declared.len() {
        match taken_from(&mut given, at) {
            Some(given) => all.push(given)?,
            None => {
                let name = copy_of(alloc, &declared[at].name)?;
                return Err(InputFault::Absent { name });
            }
        }
    }
    Ok(all)
}

/// What is in a slot, which has nothing after it.
fn taken_from(given: &mut Vec<Option<Given>>, at: usize) -> Option<Given>
    requires { at < length given.old.items }
    ensures slot { result ≡ slice_index_or given.old.items at None }
    ensures others { given.new.items ≡ slice_set given.old.items at None }
{
    given[at].take()
}
