ghost use Rattle.std.specs.Prelude.{◌≡◌, ◌++◌, [], ◌∷◌, flat_map, if◌then◌else◌, IfOk, OnOk};
ghost use Rattle.sk_names.specs.Bindings.{bound_to};
ghost use Rattle.sk_typing.specs.TypingExpressions as expressions;
ghost use Rattle.sk_typing.specs.TypingFaults.{earlier, least_of};
ghost use Rattle.sk_typing.specs.TypingInstances as instances;
ghost use Rattle.sk_typing.specs.TypingNames as names;
ghost use Rattle.sk_typing.specs.TypingStatements as statements;
ghost use Rattle.sk_typing.specs.declared.names.FaultKind.TheVariants.{Mismatch};
ghost use Rattle.sk_typing.specs.declared.names.Known.TheVariants.{Variable};
ghost use Rattle.sk_tree.specs.declared.tree.ParamKind.TheVariants.{Scalar, Proxy};
ghost use Rattle.sk_tree.specs.declared.tree.What.TheOpen as layer;
ghost use Rattle.sk_types.specs.Told.{seen};

use crate::argument::use_fault;
use crate::around::{Around, Scopes};
use crate::expression::judge_all;
use crate::instance::{instance_fault, instance_known};
use crate::least::earlier;
use crate::places::numbers;
use crate::uses::{called_use, judge_setting, poked_use, set_use, used_fault, value_fault};
use sk_base::Ty;
use sk_names::Name;
use sk_tree::{Expr, Instance, Item, ParamKind, Setting};
use sk_typing::{Fault, FaultKind, Known, Use};
use std::alloc::{AllocError, Global};

/// The fault that is told of a declaration of a name that is in scope.
pub(crate) fn twice_fault(around: &Around, scopes: &Scopes, name: &[u8]) -> Option<Fault>
    ensures { result ≡ least_of (names.twice_faults (seen around.now) scopes.now name.now) }
{
    match scopes.find(name) {
        Some(_) => around.fault(FaultKind::Twice),
        None => None,
    }
}

/// A declaration, with what else is told of it.
fn declaring<'a>(
    around: &Around,
    scopes: &mut Scopes<'a>,
    name: &'a Name,
    known: Known,
    more: Option<Fault>,
) -> Result<Option<Fault>, AllocError>
    ensures told { IfOk result (λ told. told ≡ earlier (least_of (names.twice_faults (seen around.now) scopes.old name.now)) more) }
    ensures names { OnOk result (scopes.new ≡ (name.now, known) ∷ scopes.old) }
{
    let twice = twice_fault(around, scopes, name.as_bytes());
    scopes.declare(name.as_bytes(), known)?;
    Ok(earlier(twice, more))
}

/// A declaration that a user function may not have.
fn misplaced<'a>(
    around: &Around,
    scopes: &mut Scopes<'a>,
    name: &'a Name,
    known: Known,
) -> Result<Option<Fault>, AllocError>
    ensures told { IfOk result (λ told. told ≡ least_of (names.fault (seen around.now) Mismatch)) }
    ensures names { OnOk result (scopes.new ≡ (name.now, known) ∷ scopes.old) }
{
    scopes.declare(name.as_bytes(), known)?;
    Ok(around.fault(FaultKind::Mismatch))
}

/// `type name = value`
#[tactic(auto, using(sk_typing_laws::proofs::Least::joined))]
pub(crate) fn declare<'a>(
    alloc: Global,
    around: &Around,
    scopes: &mut Scopes<'a>,
    ty: Ty,
    name: &'a Name,
    expr: &Expr,
) -> Result<Option<Fault>, AllocError>
    ensures told { IfOk result (λ told. told ≡
        least_of (names.twice_faults (seen around.now) scopes.old name.now ++ expressions.value_faults (seen around.now) scopes.old expr.now)) }
    ensures names { OnOk result (scopes.new ≡ (name.now, Variable (Scalar ty)) ∷ scopes.old) }
{
    let value = value_fault(alloc, around, scopes, expr)?;
    declaring(
        around,
        scopes,
        name,
        Known::Variable(ParamKind::Scalar(ty)),
        value,
    )
}

/// The fault that is told of a value that main alone looks at.
fn value_in_main(
    alloc: Global,
    around: &Around,
    scopes: &Scopes,
    expr: &Expr,
) -> Result<Option<Fault>, AllocError>
    ensures { IfOk result (λ told. told ≡
        least_of (if around.now.in_main then expressions.value_faults (seen around.now) scopes.now expr.now else [])) }
{
    if around.in_main {
        value_fault(alloc, around, scopes, expr)
    } else {
        Ok(None)
    }
}

/// `name = value`
#[tactic(auto, using(sk_typing_laws::proofs::Least::joined))]
pub(crate) fn assign(
    alloc: Global,
    around: &Around,
    scopes: &Scopes,
    name: &Name,
    expr: &Expr,
) -> Result<Option<Fault>, AllocError>
    ensures { IfOk result (λ told. told ≡ least_of (
        statements.assign_faults (seen around.now) (bound_to name.now scopes.now) (expressions.value_faults (seen around.now) scopes.now expr.now))) }
{
    match scopes.find(name.as_bytes()) {
        Some(Known::Variable(ParamKind::Scalar(_))) => value_fault(alloc, around, scopes, expr),
        Some(_) => {
            let value = value_in_main(alloc, around, scopes, expr)?;
            Ok(earlier(around.fault(FaultKind::Mismatch), value))
        }
        None => {
            let value = value_fault(alloc, around, scopes, expr)?;
            Ok(earlier(around.fault(FaultKind::Unknown), value))
        }
    }
}

/// The fault that is told of an element write in main.
fn poke_in_main(
    alloc: Global,
    around: &Around,
    scopes: &Scopes,
    name: &Name,
    places: &[Expr],
    expr: &Expr,
) -> Result<Option<Fault>, AllocError>
    ensures { IfOk result (λ told. told ≡ least_of (
        expressions.use_faults (seen around.now) (expressions.use_of (bound_to name.now scopes.now) expressions.poked_use)
        (expressions.judged_all (seen around.now) scopes.now places.now)
        ++ expressions.value_faults (seen around.now) scopes.now expr.now)) }
{
    let used = poked_use(alloc, scopes.find(name.as_bytes()))?;
    let target = used_fault(alloc, around, scopes, &used, places)?;
    let value = value_fault(alloc, around, scopes, expr)?;
    Ok(earlier(target, value))
}

/// `name(places) = value`
pub(crate) fn poke(
    alloc: Global,
    around: &Around,
    scopes: &Scopes,
    name: &Name,
    places: &[Expr],
    expr: &Expr,
) -> Result<Option<Fault>, AllocError>
    ensures { IfOk result (λ told. told ≡
        least_of (statements.walking_step (layer.Poke name.now places.now expr.now) around.now.line (seen around.now) scopes.now).faults) }
{
    if around.in_main {
        poke_in_main(alloc, around, scopes, name, places, expr)
    } else {
        Ok(around.fault(FaultKind::Mismatch))
    }
}

/// The fault that is told of the sizes and the fill value of a new container.
fn make_fault(
    alloc: Global,
    around: &Around,
    scopes: &Scopes,
    dimension: u8,
    arguments: &[Expr],
) -> Result<Option<Fault>, AllocError>
    ensures { IfOk result (λ told. told ≡ least_of (statements.make_faults (seen around.now) scopes.now dimension arguments.now)) }
{
    let sizes = dimension as usize;
    let count = if arguments.len() == sizes + 1 {
        sizes + 1
    } else {
        sizes
    };
    let used = Use::Takes(numbers(alloc, count)?);
    used_fault(alloc, around, scopes, &used, arguments)
}

/// The declaration of a container with its sizes and a fill value.
pub(crate) fn make<'a>(
    alloc: Global,
    around: &Around,
    scopes: &mut Scopes<'a>,
    dimension: u8,
    ty: Ty,
    name: &'a Name,
    arguments: &[Expr],
) -> Result<Option<Fault>, AllocError>
    ensures told { IfOk result (λ told. told ≡
        least_of (statements.walking_step (layer.Make dimension ty name.now arguments.now) around.now.line (seen around.now) scopes.old).faults) }
    ensures names { OnOk result (scopes.new ≡ (name.now, Variable (Proxy dimension ty)) ∷ scopes.old) }
{
    let known = Known::Variable(ParamKind::Proxy(dimension, ty));
    if !around.in_main {
        return misplaced(around, scopes, name, known);
    }
    let more = make_fault(alloc, around, scopes, dimension, arguments)?;
    declaring(around, scopes, name, known, more)
}

/// The declaration of a container that takes an input.
pub(crate) fn take<'a>(
    around: &Around,
    scopes: &mut Scopes<'a>,
    dimension: u8,
    ty: Ty,
    name: &'a Name,
) -> Result<Option<Fault>, AllocError>
    ensures told { IfOk result (λ told. told ≡ least_of (statements.of_main (seen around.now)
        (statements.declaring name.now (Variable (Proxy dimension ty)) [] (seen around.now) scopes.old)
        ((name.now, Variable (Proxy dimension ty)) ∷ scopes.old)).faults) }
    ensures names { OnOk result (scopes.new ≡ (name.now, Variable (Proxy dimension ty)) ∷ scopes.old) }
{
    let known = Known::Variable(ParamKind::Proxy(dimension, ty));
    if around.in_main {
        declaring(around, scopes, name, known, None)
    } else {
        misplaced(around, scopes, name, known)
    }
}

/// The declaration of an instance in main.
fn instance_in_main<'a>(
    around: &Around,
    scopes: &mut Scopes<'a>,
    instance: &'a Instance,
) -> Result<Option<Fault>, AllocError>
    ensures told { IfOk result (λ told. told ≡ least_of (names.twice_faults (seen around.now) scopes.old instance.now.name ++ (
        names.unless around.now.outermost (seen around.now) Mismatch ++ instances.instance_faults (seen around.now) scopes.old instance.now))) }
    ensures names { OnOk result (scopes.new ≡ (instance.now.name, instances.instance_known (seen around.now) scopes.old instance.now) ∷ scopes.old) }
{
    let misfit = instance_fault(around, scopes, instance);
    let known = instance_known(around, scopes, instance, misfit);
    let placed = around.unless(around.outermost, FaultKind::Mismatch);
    declaring(
        around,
        scopes,
        &instance.name,
        known,
        earlier(placed, misfit),
    )
}

/// The declaration of an instance.
pub(crate) fn declare_instance<'a>(
    around: &Around,
    scopes: &mut Scopes<'a>,
    instance: &'a Instance,
) -> Result<Option<Fault>, AllocError>
    ensures told { IfOk result (λ told. told ≡
        least_of (statements.walking_step (layer.Instance instance.now) around.now.line (seen around.now) scopes.old).faults) }
    ensures names { OnOk result (scopes.new ≡
        (statements.walking_step (layer.Instance instance.now) around.now.line (seen around.now) scopes.old).names) }
{
    if around.in_main {
        instance_in_main(around, scopes, instance)
    } else {
        misplaced(around, scopes, &instance.name, Known::Broken)
    }
}

/// The fault that is told of a setting in main.
fn set_in_main(
    alloc: Global,
    around: &Around,
    scopes: &Scopes,
    name: &Name,
    setting: &Setting,
) -> Result<Option<Fault>, AllocError>
    ensures { IfOk result (λ told. told ≡ least_of (
        expressions.use_faults (seen around.now) (expressions.use_of (bound_to name.now scopes.now) (expressions.set_use (seen around.now) setting.now))
        (expressions.judged_all (seen around.now) scopes.now (instances.setting_values setting.now)))) }
{
    let used = set_use(alloc, around, setting, scopes.find(name.as_bytes()))?;
    let kept = judge_setting(alloc, around, scopes, setting)?;
    Ok(use_fault(around, &used, kept.as_slice()))
}

/// A setting of an instance.
pub(crate) fn set(
    alloc: Global,
    around: &Around,
    scopes: &Scopes,
    name: &Name,
    setting: &Setting,
) -> Result<Option<Fault>, AllocError>
    ensures { IfOk result (λ told. told ≡
        least_of (statements.walking_step (layer.Set name.now setting.now) around.now.line (seen around.now) scopes.now).faults) }
{
    if around.in_main {
        set_in_main(alloc, around, scopes, name, setting)
    } else {
        Ok(around.fault(FaultKind::Mismatch))
    }
}

/// The fault that is told of a call statement in main.
fn call_in_main(
    alloc: Global,
    around: &Around,
    scopes: &Scopes,
    name: &Name,
    arguments: &[Expr],
) -> Result<Option<Fault>, AllocError>
    ensures { IfOk result (λ told. told ≡ least_of (statements.call_faults (seen around.now) scopes.now name.now arguments.now)) }
{
    let kept = judge_all(alloc, around, scopes, arguments)?;
    let judged = kept.as_slice();
    let used = called_use(alloc, around, judged, scopes.find(name.as_bytes()))?;
    Ok(use_fault(around, &used, judged))
}

/// A call statement.
pub(crate) fn call(
    alloc: Global,
    around: &Around,
    scopes: &Scopes,
    name: &Name,
    arguments: &[Expr],
) -> Result<Option<Fault>, AllocError>
    ensures { IfOk result (λ told. told ≡
        least_of (statements.walking_step (layer.Call name.now arguments.now) around.now.line (seen around.now) scopes.now).faults) }
{
    if around.in_main {
        call_in_main(alloc, around, scopes, name, arguments)
    } else {
        Ok(around.fault(FaultKind::Mismatch))
    }
}

/// The fault that is told of an item that is printed.
fn item_fault(
    alloc: Global,
    around: &Around,
    scopes: &Scopes,
    item: &Item,
) -> Result<Option<Fault>, AllocError>
    ensures { IfOk result (λ told. told ≡ least_of (statements.item_faults (seen around.now) scopes.now item.now)) }
{
    match item {
        Item::Value(expr) => value_fault(alloc, around, scopes, expr),
        Item::Text(_) => Ok(None),
        Item::End => Ok(None),
    }
}

/// The fault that is told of items that are printed.
fn items_fault(
    alloc: Global,
    around: &Around,
    scopes: &Scopes,
    items: &[Item],
) -> Result<Option<Fault>, AllocError>
    ensures { IfOk result (λ told. told ≡ least_of (flat_map (statements.item_faults (seen around.now) scopes.now) items.now)) }
{
    let mut least = None;
    for item in items {
        let told = item_fault(alloc, around, scopes, item)?;
        least = earlier(least, told);
    }
    Ok(least)
}

/// The output of items.
pub(crate) fn print(
    alloc: Global,
    around: &Around,
    scopes: &Scopes,
    items: &[Item],
) -> Result<Option<Fault>, AllocError>
    ensures { IfOk result (λ told. told ≡
        least_of (statements.walking_step (layer.Print items.now) around.now.line (seen around.now) scopes.now).faults) }
{
    if around.in_main {
        items_fault(alloc, around, scopes, items)
    } else {
        Ok(around.fault(FaultKind::Mismatch))
    }
}
