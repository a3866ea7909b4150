ghost use Rattle.std.specs.Prelude.{◌≡◌};
ghost use Rattle.sk_typing.specs.TypingExpressions as expressions;
ghost use Rattle.sk_typing.specs.TypingFaults.{least_of};
ghost use Rattle.sk_types.specs.Told.{seen, first_kept, part_told, parts_told, argument_told, each_told, use_told};

use crate::around::Around;
use crate::kinds::same_type;
use crate::least::earlier;
use sk_base::Ty;
use sk_tree::ParamKind;
use sk_typing::{Expected, Fault, FaultKind, Known, Use};

/// What is kept of an expression: whether it is a name alone, what that name stands for, and the fault that is told of it
/// as a value.
#[derive(Clone, Copy)]
pub(crate) struct Argument {
    pub(crate) is_name: bool,
    pub(crate) known: Option<Known>,
    pub(crate) least: Option<Fault>,
}

/// The dimension of the container that the first argument is.
pub(crate) fn first_dimension(arguments: &[Argument]) -> Option<u8>
    ensures { result ≡ first_kept arguments.now }
{
    match arguments {
        [
            Argument {
                known: Some(Known::Variable(ParamKind::Proxy(dimension, _))),
                ..
            },
            ..
        ] => Some(*dimension),
        _ => None,
    }
}

/// The fault that is told of an argument, whatever it has to be.
fn part_fault(around: &Around, argument: &Argument) -> Option<Fault>
    ensures { result ≡ part_told (seen around.now) argument.now }
{
    if !argument.is_name {
        return argument.least;
    }
    match argument.known {
        Some(_) => None,
        None => around.fault(FaultKind::Unknown),
    }
}

/// The fault that is told of arguments, whatever they have to be.
pub(crate) fn parts_fault(around: &Around, arguments: &[Argument]) -> Option<Fault>
    ensures { result ≡ parts_told (seen around.now) arguments.now }
{
    let mut least = None;
    for argument in arguments {
        least = earlier(least, part_fault(around, argument));
    }
    least
}

/// Whether a variable of that kind is a container of that dimension, where one is given, and of that element type.
fn container_fits(dimension: Option<u8>, ty: Ty, kind: ParamKind) -> bool
    ensures { result ≡ expressions.container_fits dimension ty kind }
{
    match kind {
        ParamKind::Proxy(found, element) => match dimension {
            None => same_type(element, ty),
            Some(wanted) => found == wanted && same_type(element, ty),
        },
        _ => false,
    }
}

/// The fault that is told of a name where a container has to stand.
fn container_fault(
    around: &Around,
    dimension: Option<u8>,
    ty: Ty,
    known: Option<Known>,
) -> Option<Fault>
    ensures { result ≡ least_of (expressions.container_faults (seen around.now) dimension ty known) }
{
    match known {
        None => around.fault(FaultKind::Unknown),
        Some(Known::Variable(kind)) => {
            around.unless(container_fits(dimension, ty, kind), FaultKind::Mismatch)
        }
        Some(_) => around.fault(FaultKind::Mismatch),
    }
}

/// The fault that is told of an argument where something is expected.
fn argument_fault(around: &Around, expected: Expected, argument: &Argument) -> Option<Fault>
    ensures { result ≡ argument_told (seen around.now) expected argument.now }
{
    match expected {
        Expected::Number => argument.least,
        Expected::Container(dimension, ty) => {
            if argument.is_name {
                container_fault(around, dimension, ty, argument.known)
            } else {
                match argument.least {
                    Some(fault) => Some(fault),
                    None => around.fault(FaultKind::Mismatch),
                }
            }
        }
    }
}

/// The fault that is told of arguments where these are expected.
fn each_fault(around: &Around, expected: &[Expected], arguments: &[Argument]) -> Option<Fault>
    ensures { result ≡ each_told (seen around.now) expected.now arguments.now }
{
    match expected {
        [] => None,
        [wanted, more @ ..] => match arguments {
            [] => None,
            [first, rest @ ..] => earlier(
                argument_fault(around, *wanted, first),
                each_fault(around, more, rest),
            ),
        },
    }
}

/// The fault that is told of a use with arguments.
pub(crate) fn use_fault(around: &Around, used: &Use, arguments: &[Argument]) -> Option<Fault>
    ensures { result ≡ use_told (seen around.now) used.now arguments.now }
{
    match used {
        Use::Takes(expected) => {
            if arguments.len() == expected.len() {
                each_fault(around, expected.as_slice(), arguments)
            } else {
                earlier(
                    around.fault(FaultKind::Arity),
                    parts_fault(around, arguments),
                )
            }
        }
        Use::Wrong(kind) => earlier(around.fault(*kind), parts_fault(around, arguments)),
        Use::Free => parts_fault(around, arguments),
    }
}
