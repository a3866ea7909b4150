ghost use Rattle.std.specs.Prelude.{◌≡◌, [], ◌∷◌, map, length, IfOk};
ghost use Rattle.sk_typing.specs.TypingExpressions as expressions;
ghost use Rattle.sk_typing.specs.TypingFaults.{least_of};
ghost use Rattle.sk_typing.specs.TypingInstances as instances;
ghost use Rattle.sk_types.specs.Told.{seen, argument_of, first_kept};

use crate::argument::{Argument, first_dimension, use_fault};
use crate::around::{Around, Scopes};
use crate::expression::{element_use, judge, judge_all};
use crate::setting::setting_use;
use crate::skeleton::statement_use;
use sk_tree::{Expr, ParamKind, Setting};
use sk_typing::{Fault, FaultKind, Known, Use};
use sqlite_items::Items;
use std::alloc::{AllocError, Global};

/// The fault that is told of an expression as a value.
pub(crate) fn value_fault(
    alloc: Global,
    around: &Around,
    scopes: &Scopes,
    expr: &Expr,
) -> Result<Option<Fault>, AllocError>
    ensures { IfOk result (λ told. told ≡ least_of (expressions.value_faults (seen around.now) scopes.now expr.now)) }
{
    let judged = judge(alloc, around, scopes, expr)?;
    Ok(judged.least)
}

/// The fault that is told of a use with arguments.
#[tactic(auto, using(crate::proofs::ToldLemmas::use_is))]
pub(crate) fn used_fault(
    alloc: Global,
    around: &Around,
    scopes: &Scopes,
    used: &Use,
    arguments: &[Expr],
) -> Result<Option<Fault>, AllocError>
    ensures { IfOk result (λ told. told ≡
        least_of (expressions.use_faults (seen around.now) used.now (expressions.judged_all (seen around.now) scopes.now arguments.now))) }
{
    let kept = judge_all(alloc, around, scopes, arguments)?;
    Ok(use_fault(around, used, kept.as_slice()))
}

/// What a name takes as a call statement.
pub(crate) fn called_use(
    alloc: Global,
    around: &Around,
    arguments: &[Argument],
    known: Option<Known>,
) -> Result<Use, AllocError>
    ensures { IfOk result (λ used. used ≡
        expressions.use_of known (expressions.called_use (seen around.now) (length arguments.now) (first_kept arguments.now))) }
{
    match known {
        None => Ok(Use::Wrong(FaultKind::Unknown)),
        Some(Known::Broken) => Ok(Use::Free),
        Some(Known::Instance(made)) => match around.functions.get(made.function) {
            Some(function) => {
                let first = first_dimension(arguments);
                statement_use(alloc, made, arguments.len(), first, function)
            }
            None => Ok(Use::Free),
        },
        Some(_) => Ok(Use::Wrong(FaultKind::Mismatch)),
    }
}

/// What a name takes as the target of an element write.
pub(crate) fn poked_use(alloc: Global, known: Option<Known>) -> Result<Use, AllocError>
    ensures { IfOk result (λ used. used ≡ expressions.use_of known expressions.poked_use) }
{
    match known {
        None => Ok(Use::Wrong(FaultKind::Unknown)),
        Some(Known::Variable(ParamKind::Proxy(dimension, _))) => element_use(alloc, dimension),
        Some(_) => Ok(Use::Wrong(FaultKind::Mismatch)),
    }
}

/// What a name takes in a setting.
pub(crate) fn set_use(
    alloc: Global,
    around: &Around,
    setting: &Setting,
    known: Option<Known>,
) -> Result<Use, AllocError>
    ensures { IfOk result (λ used. used ≡ expressions.use_of known (expressions.set_use (seen around.now) setting.now)) }
{
    match known {
        None => Ok(Use::Wrong(FaultKind::Unknown)),
        Some(Known::Broken) => Ok(Use::Free),
        Some(Known::Instance(made)) => match around.functions.get(made.function) {
            Some(function) => setting_use(alloc, made, function, setting),
            None => Ok(Use::Free),
        },
        Some(_) => Ok(Use::Wrong(FaultKind::Mismatch)),
    }
}

/// What is kept of one expression, as a list.
fn judge_single(
    alloc: Global,
    around: &Around,
    scopes: &Scopes,
    expr: &Expr,
) -> Result<Items<Argument>, AllocError>
    ensures { IfOk result (λ kept. kept ≡ map argument_of (expressions.judged_all (seen around.now) scopes.now (expr.now ∷ []))) }
{
    let judged = judge(alloc, around, scopes, expr)?;
    let mut kept = Items::new(alloc);
    kept.push(judged)?;
    Ok(kept)
}

/// What is kept of the values of a setting.
pub(crate) fn judge_setting(
    alloc: Global,
    around: &Around,
    scopes: &Scopes,
    setting: &Setting,
) -> Result<Items<Argument>, AllocError>
    ensures { IfOk result (λ kept. kept ≡
        map argument_of (expressions.judged_all (seen around.now) scopes.now (instances.setting_values setting.now))) }
{
    match setting {
        Setting::Start(value) => judge_single(alloc, around, scopes, value),
        Setting::Scan(_) => Ok(Items::new(alloc)),
        Setting::Lines(_) => Ok(Items::new(alloc)),
        Setting::Overlap(values) => judge_all(alloc, around, scopes, values.as_slice()),
        Setting::Edge(_) => Ok(Items::new(alloc)),
        Setting::Pad(value) => judge_single(alloc, around, scopes, value),
    }
}
