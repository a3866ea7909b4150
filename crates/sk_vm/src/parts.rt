ghost use Rattle.std.specs.Prelude.{◌≡◌, ◌<◌, ◌≤◌, ◌+◌, ◌^◌, if◌then◌else◌, length, slice_get};
ghost use Rattle.sk_isa.specs.Objects.{signature_at};
ghost use Rattle.sk_tree.specs.Parameters.{index_dimension, leading_scalars};

use sk_isa::{Instr, Object, Plan};
use sk_kernel::At;
use sk_tree::ParamKind;

/// The instruction at an address.
#[inline]
pub fn instr_at(instrs: &[Instr], at: usize) -> &Instr
    requires { at < length instrs.now }
    ensures found { slice_get instrs.now at ≡ Some result.now }
    ensures address { at + 1 < 2 ^ 64 }
{
    &instrs[at]
}

/// An instance by its number.
pub fn plan_at(object: &Object, instance: u32) -> &Plan
    requires { instance < length object.now.instances }
    ensures { slice_get object.now.instances instance ≡ Some result.now }
{
    &object.instances.as_slice()[instance as usize]
}

/// The dimension of a function's index parameter, if it has one.
pub fn index_of(object: &Object, function: u32) -> Option<u8>
    requires { function < length object.now.signatures }
    ensures { result ≡ index_dimension (signature_at object.now function).params }
{
    let signature = &object.signatures.as_slice()[function as usize];
    match signature.params.as_slice().first() {
        Some(ParamKind::Index(dimension)) => Some(*dimension),
        _ => None,
    }
}

/// How many scalars stand before the first container of a function.
pub fn leading_of(object: &Object, function: u32) -> usize
    requires { function < length object.now.signatures }
    ensures { result ≡ leading_scalars (signature_at object.now function).params }
{
    leading_in(
        object.signatures.as_slice()[function as usize]
            .params
            .as_slice(),
    )
}

/// How many scalars stand before the first container.
fn leading_in(kinds: &[ParamKind]) -> usize
    ensures count { result ≡ leading_scalars kinds.now }
    ensures few { result ≤ length kinds.now }
{
    match kinds {
        [] => 0,
        [ParamKind::Scalar(_), rest @ ..] => 1 + leading_in(rest),
        [ParamKind::Index(_), rest @ ..] => leading_in(rest),
        _ => 0,
    }
}

/// The place that is so many behind another; over pairs the place stays, and the pair goes on.
#[inline]
pub fn place_behind(at: At, pairs: bool, behind: u32) -> At
    requires place { at.place + behind < 2 ^ 32 }
    requires pair { at.pair + behind < 2 ^ 32 }
    ensures place { result.place ≡ if pairs then at.place else at.place + behind }
    ensures pair { result.pair ≡ if pairs then at.pair + behind else at.pair }
{
    if pairs {
        At {
            pair: at.pair + behind,
            ..at
        }
    } else {
        At {
            place: at.place + behind,
            ..at
        }
    }
}
