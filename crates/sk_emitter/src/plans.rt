ghost use Rattle.std.specs.Prelude.{◌≡◌, IfOk};
ghost use Rattle.sk_scheme.specs.Plans as plans;
ghost use Rattle.sk_scheme.specs.Scheme.{kinds_of};
ghost use Rattle.sk_tree.specs.Parameters as parameters;
ghost use Rattle.sk_tree.specs.Skeletons.{elements_of};
ghost use Rattle.sk_tree.specs.declared.tree.Skeleton.TheVariants as skeletons;

use crate::names::InScope;
use crate::output::address;
use sk_base::Cell;
use sk_isa::{Plan, Variant};
use sk_names::Name;
use sk_tree::{Instance, Param, ParamKind, Skeleton, Statement, What};
use sqlite_items::Items;
use std::alloc::{AllocError, Global};

/// How many scalars stand before the first container.
fn leading_scalars(params: &[Param]) -> usize
    ensures { result ≡ parameters.leading_scalars (kinds_of params.now) }
{
    let mut count = 0;
    for param in params {
        match param.kind {
            ParamKind::Scalar(_) => count += 1,
            ParamKind::Index(_) => {}
            _ => return count,
        }
    }
    count
}

/// The parameters of the first of these functions.
fn first_params<'a>(names: &InScope<'a>, functions: &[Name]) -> &'a [Param]
    ensures { kinds_of result.now ≡ plans.first_kinds names.now.functions functions.now }
{
    match functions.first() {
        Some(name) => match names.callee(name.as_bytes()) {
            Some(callee) => callee.function.params.as_slice(),
            None => &[],
        },
        None => &[],
    }
}

/// The number of a declaration, or else all leading scalars.
fn chosen(numbers: &[Cell], params: &[Param]) -> Result<u32, AllocError>
    ensures map { IfOk result (λ elements. elements ≡ elements_of skeletons.Map numbers.now (kinds_of params.now)) }
    ensures map_reduce { IfOk result (λ elements. elements ≡ elements_of skeletons.MapReduce numbers.now (kinds_of params.now)) }
{
    match numbers.first() {
        Some(number) => match u32::try_from(number.unsigned_abs()) {
            Ok(elements) => Ok(elements),
            Err(_) => Err(AllocError),
        },
        None => address(leading_scalars(params)),
    }
}

/// How many parameters of an instance's function are elements.
pub fn elements(skeleton: Skeleton, numbers: &[Cell], params: &[Param]) -> Result<u32, AllocError>
    ensures { IfOk result (λ elements. elements ≡ elements_of skeleton numbers.now (kinds_of params.now)) }
{
    match skeleton {
        Skeleton::Map => chosen(numbers, params),
        Skeleton::MapReduce => chosen(numbers, params),
        Skeleton::MapPairs => Ok(2),
        Skeleton::MapPairsReduce => Ok(2),
        Skeleton::Reduce => Ok(0),
        Skeleton::Scan => Ok(0),
        Skeleton::MapOverlap => Ok(0),
        Skeleton::Call => Ok(0),
    }
}

/// The numbers of functions.
fn numbers(alloc: Global, names: &InScope<'_>, functions: &[Name]) -> Result<Items<u32>, AllocError>
    ensures { IfOk result (λ numbers. numbers ≡ plans.numbers_of names.now.functions functions.now) }
{
    let mut numbers = Items::new(alloc);
    for name in functions {
        if let Some(callee) = names.callee(name.as_bytes()) {
            numbers.push(callee.number)?;
        }
    }
    Ok(numbers)
}

/// An instance that is run sequentially alone.
pub fn plan(alloc: Global, names: &InScope<'_>, instance: &Instance) -> Result<Plan, AllocError>
    ensures { IfOk result (λ plan. plan ≡ plans.plan_of names.now.functions instance.now) }
{
    let functions = instance.functions.as_slice();
    let params = first_params(names, functions);
    Ok(Plan {
        name: Name::from_slice(alloc, instance.name.as_bytes())?,
        skeleton: instance.skeleton,
        functions: numbers(alloc, names, functions)?,
        elements: elements(instance.skeleton, instance.numbers.as_slice(), params)?,
        variants: Items::from_slice(alloc, &[Variant::Sequential])?,
    })
}

/// The instances that statements declare, in text order.
pub(crate) fn plans(
    alloc: Global,
    names: &InScope<'_>,
    statements: &[Statement],
) -> Result<Items<Plan>, AllocError>
    ensures { IfOk result (λ plans'. plans' ≡ plans.plans_in names.now.functions statements.now) }
{
    let mut plans = Items::new(alloc);
    for statement in statements {
        if let What::Instance(instance) = &statement.what {
            plans.push(plan(alloc, names, instance)?)?;
        }
    }
    Ok(plans)
}
