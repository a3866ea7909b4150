ghost use Rattle.std.specs.Prelude.{◌≡◌, map, length, false, true, None, Some, IfOk};
ghost use Rattle.sk_names.specs.Bindings.{bound_to};
ghost use Rattle.sk_typing.specs.TypingExpressions as expressions;
ghost use Rattle.sk_typing.specs.TypingFaults.{least_of};
ghost use Rattle.sk_typing.specs.TypingNames as names;
ghost use Rattle.sk_typing.specs.declared.names.Known.TheVariants.{Function as FunctionName};
ghost use Rattle.sk_typing.specs.declared.names.Use.TheVariants.{Takes};
ghost use Rattle.sk_types.specs.Members.{has_member};
ghost use Rattle.sk_types.specs.Told.{seen, argument_of, applied_told, first_kept};

use crate::argument::{Argument, first_dimension, parts_fault, use_fault};
use crate::around::{Around, Scopes};
use crate::fields::{is_field, is_method};
use crate::kinds::scalars_only;
use crate::least::earlier;
use crate::places::numbers;
use crate::skeleton::value_use;
use sk_tree::{Expr, Function, ParamKind};
use sk_typing::{Fault, FaultKind, Known, Use};
use sqlite_items::Items;
use std::alloc::{AllocError, Global};

/// The fault that is told of a name that is used as a number.
pub(crate) fn scalar_fault(around: &Around, known: Option<Known>) -> Option<Fault>
    ensures { result ≡ least_of (names.scalar_faults (seen around.now) known) }
{
    match known {
        None => around.fault(FaultKind::Unknown),
        Some(Known::Variable(ParamKind::Scalar(_))) => None,
        Some(_) => around.fault(FaultKind::Mismatch),
    }
}

/// What a variable may have beside its value.
#[derive(Clone, Copy)]
pub(crate) enum Member {
    /// A field, which user functions read.
    Field,
    /// A method, which main calls.
    Method,
}

/// Whether a variable of that kind has the member, and may be asked for it here.
fn has_member(around: &Around, member: Member, name: &[u8], kind: ParamKind) -> bool
    ensures { result ≡ has_member around.now.in_main member name.now kind }
{
    match member {
        Member::Field => !around.in_main && is_field(kind, name),
        Member::Method => around.in_main && is_method(kind, name),
    }
}

/// The fault that is told of a member of a name.
fn member_fault(around: &Around, known: Option<Known>, member: Member, name: &[u8]) -> Option<Fault>
    ensures { result ≡ least_of (names.variable_faults (seen around.now) known (has_member around.now.in_main member name.now)) }
{
    match known {
        None => around.fault(FaultKind::Unknown),
        Some(Known::Variable(kind)) => {
            around.unless(has_member(around, member, name, kind), FaultKind::Mismatch)
        }
        Some(_) => around.fault(FaultKind::Mismatch),
    }
}

/// What a function takes in an expression: as many values as it has parameters, where all of them are scalars.
fn function_use(alloc: Global, function: &Function) -> Result<Use, AllocError>
    ensures { IfOk result (λ used. used ≡ expressions.function_use (Some function.now)) }
{
    let params = function.params.as_slice();
    if scalars_only(params) {
        let places = numbers(alloc, params.len())?;
        Ok(Use::Takes(places))
    } else {
        Ok(Use::Wrong(FaultKind::Mismatch))
    }
}

/// What a container takes in an expression: an index for each dimension.
pub(crate) fn element_use(alloc: Global, dimension: u8) -> Result<Use, AllocError>
    ensures { IfOk result (λ used. used ≡ Takes (names.numbers dimension)) }
{
    let places = numbers(alloc, dimension as usize)?;
    Ok(Use::Takes(places))
}

/// What the function of that number takes, which has to stand before the one that this stands in.
fn earlier_function_use(alloc: Global, around: &Around, number: usize) -> Result<Use, AllocError>
    ensures { IfOk result (λ used. used ≡ expressions.applied_use (seen around.now) 0 None (FunctionName number)) }
{
    if number >= around.number {
        return Ok(Use::Wrong(FaultKind::Mismatch));
    }
    match around.functions.get(number) {
        Some(function) => function_use(alloc, function),
        None => Ok(Use::Wrong(FaultKind::Mismatch)),
    }
}

/// What a name takes in an expression: the arguments of a call, or the place of an element.
fn applied_use(
    alloc: Global,
    around: &Around,
    arguments: &[Argument],
    known: Known,
) -> Result<Use, AllocError>
    ensures { IfOk result (λ used. used ≡ expressions.applied_use (seen around.now) (length arguments.now) (first_kept arguments.now) known) }
{
    match known {
        Known::Variable(ParamKind::Scalar(_)) => Ok(Use::Wrong(FaultKind::Mismatch)),
        Known::Variable(ParamKind::Index(_)) => Ok(Use::Wrong(FaultKind::Mismatch)),
        Known::Variable(ParamKind::Proxy(dimension, _)) => element_use(alloc, dimension),
        Known::Variable(ParamKind::Region(dimension, _)) => element_use(alloc, dimension),
        Known::Function(number) => earlier_function_use(alloc, around, number),
        Known::Instance(made) => match around.functions.get(made.function) {
            Some(function) => {
                value_use(
                    alloc,
                    made,
                    arguments.len(),
                    first_dimension(arguments),
                    function,
                )
            }
            None => Ok(Use::Free),
        },
        Known::Broken => Ok(Use::Free),
    }
}

/// What is kept of an expression that is no name.
fn value(least: Option<Fault>) -> Argument
    ensures { result ≡ record { is_name = false; known = None; least = least } }
{
    Argument {
        is_name: false,
        known: None,
        least,
    }
}

/// What is kept of a name alone.
fn name_argument(around: &Around, known: Option<Known>) -> Argument
    ensures { result ≡ record { is_name = true; known = known; least = least_of (names.scalar_faults (seen around.now) known) } }
{
    Argument {
        is_name: true,
        known,
        least: scalar_fault(around, known),
    }
}

/// The fault that is told of a name with arguments in an expression.
fn applied_fault(
    alloc: Global,
    around: &Around,
    known: Option<Known>,
    arguments: &[Argument],
) -> Result<Option<Fault>, AllocError>
    ensures { IfOk result (λ told. told ≡ applied_told (seen around.now) known arguments.now) }
{
    let parts = parts_fault(around, arguments);
    match known {
        None => Ok(earlier(around.fault(FaultKind::Unknown), parts)),
        Some(found) => match parts {
            Some(fault) => Ok(Some(fault)),
            None => {
                let used = applied_use(alloc, around, arguments, found)?;
                Ok(use_fault(around, &used, arguments))
            }
        },
    }
}

/// What is kept of an expression.
#[cycle(judged)]
#[tactic(auto, using(sk_typing_laws::proofs::Least::least_of_append, crate::proofs::ToldLemmas::applied_is))]
pub(crate) fn judge(
    alloc: Global,
    around: &Around,
    scopes: &Scopes,
    expr: &Expr,
) -> Result<Argument, AllocError>
    ensures { IfOk result (λ kept. kept ≡ argument_of (expressions.judged_of expr.now (seen around.now) scopes.now)) }
{
    match expr {
        Expr::Number(_, _) => Ok(value(None)),
        Expr::Name(name) => Ok(name_argument(around, scopes.find(name.as_bytes()))),
        Expr::Field(name, field) => {
            let known = scopes.find(name.as_bytes());
            Ok(value(member_fault(around, known, Member::Field, field.as_bytes())))
        }
        Expr::Method(name, method) => {
            let known = scopes.find(name.as_bytes());
            Ok(value(member_fault(around, known, Member::Method, method.as_bytes())))
        }
        Expr::Unary(_, part) => Ok(value(judge(alloc, around, scopes, part.get())?.least)),
        Expr::Cast(_, part) => Ok(value(judge(alloc, around, scopes, part.get())?.least)),
        Expr::Binary(_, left, right) => {
            let one = judge(alloc, around, scopes, left.get())?;
            let other = judge(alloc, around, scopes, right.get())?;
            Ok(value(earlier(one.least, other.least)))
        }
        Expr::Both(left, right) => {
            let one = judge(alloc, around, scopes, left.get())?;
            let other = judge(alloc, around, scopes, right.get())?;
            Ok(value(earlier(one.least, other.least)))
        }
        Expr::Either(left, right) => {
            let one = judge(alloc, around, scopes, left.get())?;
            let other = judge(alloc, around, scopes, right.get())?;
            Ok(value(earlier(one.least, other.least)))
        }
        Expr::Choose(test, one, other) => {
            let tested = judge(alloc, around, scopes, test.get())?;
            let chosen = judge(alloc, around, scopes, one.get())?;
            let left = judge(alloc, around, scopes, other.get())?;
            Ok(value(earlier(earlier(tested.least, chosen.least), left.least)))
        }
        Expr::Apply(name, arguments) => {
            let kept = judge_all(alloc, around, scopes, arguments.as_slice())?;
            let known = scopes.find(name.as_bytes());
            let least = applied_fault(alloc, around, known, kept.as_slice())?;
            Ok(value(least))
        }
    }
}

/// What is kept of several expressions.
#[cycle(judged)]
pub(crate) fn judge_all(
    alloc: Global,
    around: &Around,
    scopes: &Scopes,
    exprs: &[Expr],
) -> Result<Items<Argument>, AllocError>
    ensures { IfOk result (λ kept. kept ≡ map argument_of (expressions.judged_all (seen around.now) scopes.now exprs.now)) }
{
    let mut kept = Items::new(alloc);
    for expr in exprs {
        let judged = judge(alloc, around, scopes, expr)?;
        kept.push(judged)?;
    }
    Ok(kept)
}
