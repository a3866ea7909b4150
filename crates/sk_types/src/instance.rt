ghost use Rattle.std.specs.Prelude.{◌≡◌, ◌∷◌, ◌==◌, Some, map, flat_map, length, if◌then◌else◌};
ghost use Rattle.std.specs.Option.{option_copied};
ghost use Rattle.sk_names.specs.Bindings.{bound_to};
ghost use Rattle.sk_typing.specs.TypingFaults.{least_of};
ghost use Rattle.sk_typing.specs.TypingInstances as instances;
ghost use Rattle.sk_typing.specs.TypingNames as names;
ghost use Rattle.sk_typing.specs.declared.names.FaultKind.TheVariants.{Arity};
ghost use Rattle.sk_types.specs.Told.{seen};
ghost use Rattle.sk_tree.specs.Skeletons as skeletons;

use crate::around::{Around, Scopes};
use crate::least::earlier;
use crate::skeleton::{elements_of, fits_skeleton, function_count, is_second, numbers_fit};
use sk_base::{Cell, Ty};
use sk_names::Name;
use sk_tree::{Function, Instance, Skeleton};
use sk_typing::{Fault, FaultKind, Known, Made};

/// The fault that is told of a name in an instance, which has to stand for a function before main.
fn callee_fault(around: &Around, known: Option<Known>) -> Option<Fault>
    ensures { result ≡ least_of (instances.callee_faults (seen around.now) known) }
{
    match known {
        None => around.fault(FaultKind::Unknown),
        Some(Known::Function(number)) => {
            around.unless(number < around.number, FaultKind::Mismatch)
        }
        Some(_) => around.fault(FaultKind::Mismatch),
    }
}

/// The fault that is told of the names of functions in an instance.
fn callees_fault(around: &Around, scopes: &Scopes, functions: &[Name]) -> Option<Fault>
    ensures { result ≡ least_of (flat_map (λ name. instances.callee_faults (seen around.now) (bound_to name scopes.now)) functions.now) }
{
    let mut least = None;
    for name in functions {
        let known = scopes.find(name.as_bytes());
        least = earlier(least, callee_fault(around, known));
    }
    least
}

/// The function that a name in an instance stands for.
fn callee<'a>(around: &Around<'a>, known: Option<Known>) -> Option<&'a Function>
    ensures { option_copied result ≡ instances.callee_of (seen around.now) known }
{
    match known {
        Some(Known::Function(number)) => {
            if number < around.number {
                around.functions.get(number)
            } else {
                None
            }
        }
        _ => None,
    }
}

/// The fault that is told of a second function, where there is one.
fn second_fault(around: &Around, scopes: &Scopes, ty: Ty, functions: &[Name]) -> Option<Fault>
    ensures { result ≡ least_of (instances.second_faults (seen around.now) ty
        (map (λ name. instances.callee_of (seen around.now) (bound_to name scopes.now)) functions.now)) }
{
    match functions {
        [second] => match callee(around, scopes.find(second.as_bytes())) {
            Some(function) => around.unless(is_second(ty, function), FaultKind::Mismatch),
            None => None,
        },
        _ => None,
    }
}

/// The fault that is told of an instance with a first function, and others by name.
fn first_fault(
    around: &Around,
    scopes: &Scopes,
    skeleton: Skeleton,
    numbers: &[Cell],
    function: &Function,
    others: &[Name],
) -> Option<Fault>
    ensures { result ≡ least_of (instances.form_faults (seen around.now) skeleton numbers.now
        (Some function.now ∷ map (λ name. instances.callee_of (seen around.now) (bound_to name scopes.now)) others.now)) }
{
    let params = function.params.as_slice();
    let misfit = around.unless(
        fits_skeleton(skeleton, function.ret, params),
        FaultKind::Mismatch,
    );
    let miscount = around.unless(numbers_fit(skeleton, numbers, params), FaultKind::Arity);
    let second = second_fault(around, scopes, function.ret, others);
    earlier(earlier(misfit, miscount), second)
}

/// The fault that is told of an instance that does not fit its functions, as far as they are known.
fn form_fault(
    around: &Around,
    scopes: &Scopes,
    skeleton: Skeleton,
    numbers: &[Cell],
    functions: &[Name],
) -> Option<Fault>
    ensures { result ≡ least_of (instances.form_faults (seen around.now) skeleton numbers.now
        (map (λ name. instances.callee_of (seen around.now) (bound_to name scopes.now)) functions.now)) }
{
    match functions {
        [] => None,
        [first, rest @ ..] => match callee(around, scopes.find(first.as_bytes())) {
            Some(function) => first_fault(around, scopes, skeleton, numbers, function, rest),
            None => None,
        },
    }
}

/// The fault that is told of the number of functions in an instance, or else of how it fits them.
fn fit_fault(around: &Around, scopes: &Scopes, instance: &Instance) -> Option<Fault>
    ensures { result ≡ least_of (if length instance.now.functions == skeletons.function_count instance.now.skeleton
        then instances.form_faults (seen around.now) instance.now.skeleton instance.now.numbers
        (map (λ name. instances.callee_of (seen around.now) (bound_to name scopes.now)) instance.now.functions)
        else names.fault (seen around.now) Arity) }
{
    let functions = instance.functions.as_slice();
    if functions.len() == function_count(instance.skeleton) {
        form_fault(
            around,
            scopes,
            instance.skeleton,
            instance.numbers.as_slice(),
            functions,
        )
    } else {
        around.fault(FaultKind::Arity)
    }
}

/// The fault that is told of an instance, apart from where it stands and from its name.
pub(crate) fn instance_fault(around: &Around, scopes: &Scopes, instance: &Instance) -> Option<Fault>
    ensures { result ≡ least_of (instances.instance_faults (seen around.now) scopes.now instance.now) }
{
    earlier(
        callees_fault(around, scopes, instance.functions.as_slice()),
        fit_fault(around, scopes, instance),
    )
}

/// The number of the first function of an instance, or 0 where its name stands for none.
fn first_number(scopes: &Scopes, functions: &[Name]) -> usize
    ensures { result ≡ instances.first_number scopes.now functions.now }
{
    match functions {
        [] => 0,
        [first, ..] => match scopes.find(first.as_bytes()) {
            Some(Known::Function(number)) => number,
            _ => 0,
        },
    }
}

/// How many elements an instance takes whose first function has that number.
fn elements_at(around: &Around, number: usize, skeleton: Skeleton, numbers: &[Cell]) -> usize
    ensures { result ≡ skeletons.elements_of skeleton numbers.now (instances.kinds_at (seen around.now) number) }
{
    match around.functions.get(number) {
        Some(function) => elements_of(skeleton, numbers, function.params.as_slice()),
        None => elements_of(skeleton, numbers, &[]),
    }
}

/// What an instance is known as, with the fault that is told of it.
#[tactic(auto, using(sk_typing_laws::proofs::Least::none_told))]
pub(crate) fn instance_known(
    around: &Around,
    scopes: &Scopes,
    instance: &Instance,
    least: Option<Fault>,
) -> Known
    requires { least ≡ least_of (instances.instance_faults (seen around.now) scopes.now instance.now) }
    ensures { result ≡ instances.instance_known (seen around.now) scopes.now instance.now }
{
    match least {
        Some(_) => Known::Broken,
        None => {
            let number = first_number(scopes, instance.functions.as_slice());
            let numbers = instance.numbers.as_slice();
            Known::Instance(Made {
                skeleton: instance.skeleton,
                function: number,
                elements: elements_at(around, number, instance.skeleton, numbers),
            })
        }
    }
}
