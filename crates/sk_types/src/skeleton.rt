ghost use Rattle.std.specs.Prelude.{◌≡◌, [], ◌∷◌, ◌++◌, map, nat_le, nat_abs, unsigned_abs, OnOk, IfOk, None, Some};
ghost use Rattle.sk_base.specs.declared.number.Ty.TheVariants.{Int};
ghost use Rattle.sk_typing.specs.TypingInstances as instances;
ghost use Rattle.sk_typing.specs.declared.names.Expected.TheVariants.{Container};
ghost use Rattle.sk_typing.specs.declared.names.Use.TheVariants.{Takes};
ghost use Rattle.sk_tree.specs.declared.tree.Skeleton.TheVariants.{Map, MapReduce, MapOverlap, MapPairs};
ghost use Rattle.sk_tree.specs.Skeletons as skeletons;
ghost use Rattle.sk_tree.specs.Parameters as parameters;
ghost use Rattle.sk_tree.specs.Functions as functions;

use crate::kinds::{
    has_region, index_dimension, index_fits, is_operator, leading_scalars, region_of, same_type,
};
use crate::places::{push_elements, push_further};
use sk_base::{Cell, Ty};
use sk_tree::{Function, Param, Skeleton};
use sk_typing::{Expected, FaultKind, Made, Use};
use sqlite_items::Items;
use std::alloc::{AllocError, Global};

/// How many functions an instance names.
pub(crate) fn function_count(skeleton: Skeleton) -> usize
    ensures { result ≡ skeletons.function_count skeleton }
{
    match skeleton {
        Skeleton::MapReduce | Skeleton::MapPairsReduce => 2,
        _ => 1,
    }
}

/// Whether a function with these parameters can be the first of a skeleton over pairs.
fn fits_pairs(params: &[Param]) -> bool
    ensures { result ≡ skeletons.fits_skeleton MapPairs Int (map (λ param. param.kind) params.now) }
{
    !has_region(params) && leading_scalars(params) >= 2 && index_fits(params, 2)
}

/// Whether a function with these parameters can be that of MapOverlap.
fn fits_overlap(params: &[Param]) -> bool
    ensures { result ≡ skeletons.fits_skeleton MapOverlap Int (map (λ param. param.kind) params.now) }
{
    match region_of(params) {
        Some((dimension, _)) => index_fits(params, dimension),
        None => false,
    }
}

/// Whether a function with these parameters can be a skeleton's first.
pub(crate) fn fits_skeleton(skeleton: Skeleton, ret: Ty, params: &[Param]) -> bool
    ensures { result ≡ skeletons.fits_skeleton skeleton ret (map (λ param. param.kind) params.now) }
{
    match skeleton {
        Skeleton::Reduce => is_operator(ret, params),
        Skeleton::Scan => is_operator(ret, params),
        Skeleton::MapOverlap => fits_overlap(params),
        Skeleton::Map => !has_region(params),
        Skeleton::MapReduce => !has_region(params),
        Skeleton::MapPairs => fits_pairs(params),
        Skeleton::MapPairsReduce => fits_pairs(params),
        Skeleton::Call => !has_region(params) && index_dimension(params).is_none(),
    }
}

/// Whether the absolute value of a number is at most the count.
fn is_up_to(number: Cell, count: usize) -> bool
    ensures { result ≡ nat_le (nat_abs number) count }
{
    number.unsigned_abs() <= count as u64
}

/// Whether the numbers of a Map fit: how many elements it takes, at most the leading scalars.
fn map_numbers_fit(numbers: &[Cell], params: &[Param]) -> bool
    ensures { result ≡ skeletons.numbers_fit Map numbers.now (map (λ param. param.kind) params.now) }
{
    match numbers {
        [] => true,
        [count] => is_up_to(*count, leading_scalars(params)),
        _ => false,
    }
}

/// Whether the numbers of a MapReduce fit: how many elements it takes, at least one.
fn map_reduce_numbers_fit(numbers: &[Cell], params: &[Param]) -> bool
    ensures { result ≡ skeletons.numbers_fit MapReduce numbers.now (map (λ param. param.kind) params.now) }
{
    match numbers {
        [] => leading_scalars(params) >= 1,
        [count] => !is_up_to(*count, 0) && is_up_to(*count, leading_scalars(params)),
        _ => false,
    }
}

/// Whether the numbers of a skeleton over pairs fit: 1 and 1, or none.
fn pairs_numbers_fit(numbers: &[Cell]) -> bool
    ensures { result ≡ skeletons.numbers_fit MapPairs numbers.now [] }
{
    match numbers {
        [] => true,
        [left, right] => left.unsigned_abs() == 1 && right.unsigned_abs() == 1,
        _ => false,
    }
}

/// Whether the numbers of an instance fit its first function's parameters.
pub(crate) fn numbers_fit(skeleton: Skeleton, numbers: &[Cell], params: &[Param]) -> bool
    ensures { result ≡ skeletons.numbers_fit skeleton numbers.now (map (λ param. param.kind) params.now) }
{
    match skeleton {
        Skeleton::Map => map_numbers_fit(numbers, params),
        Skeleton::MapReduce => map_reduce_numbers_fit(numbers, params),
        Skeleton::MapPairs => pairs_numbers_fit(numbers),
        Skeleton::MapPairsReduce => pairs_numbers_fit(numbers),
        Skeleton::Reduce => numbers.is_empty(),
        Skeleton::Scan => numbers.is_empty(),
        Skeleton::MapOverlap => numbers.is_empty(),
        Skeleton::Call => numbers.is_empty(),
    }
}

/// How many elements an instance takes: the number that it gives, or all leading scalars.
fn count_or_all(numbers: &[Cell], params: &[Param]) -> usize
    ensures { result ≡ skeletons.elements_of Map numbers.now (map (λ param. param.kind) params.now) }
{
    match numbers {
        [] => leading_scalars(params),
        [count, ..] => count.unsigned_abs() as usize,
    }
}

/// How many element parameters an instance has.
pub(crate) fn elements_of(skeleton: Skeleton, numbers: &[Cell], params: &[Param]) -> usize
    ensures { result ≡ skeletons.elements_of skeleton numbers.now (map (λ param. param.kind) params.now) }
{
    match skeleton {
        Skeleton::Map => count_or_all(numbers, params),
        Skeleton::MapReduce => count_or_all(numbers, params),
        Skeleton::MapPairs => 2,
        Skeleton::MapPairsReduce => 2,
        Skeleton::Reduce => 0,
        Skeleton::Scan => 0,
        Skeleton::MapOverlap => 0,
        Skeleton::Call => 0,
    }
}

/// Whether a function can be the second of an instance.
pub(crate) fn is_second(ty: Ty, function: &Function) -> bool
    ensures { result ≡ instances.is_second ty function.now }
{
    same_type(function.ret, ty) && is_operator(ty, function.params.as_slice())
}

/// Adds elements of that dimension, and what stands behind them.
fn push_arguments(
    places: &mut Items<Expected>,
    dimension: Option<u8>,
    count: usize,
    params: &[Param],
) -> Result<(), AllocError>
    ensures { OnOk result (places.new ≡ places.old ++ (
        instances.element_places dimension count (map (λ param. param.kind) params.now)
        ++ instances.further_places count (map (λ param. param.kind) params.now))) }
{
    push_elements(places, dimension, count, params)?;
    push_further(places, count, params)
}

/// The dimension of the index parameter, or else that of the first argument.
fn common_dimension(first: Option<u8>, params: &[Param]) -> Option<u8>
    ensures { result ≡ elim (parameters.index_dimension (map (λ param. param.kind) params.now)) [ Some index ↦ Some index | None ↦ first ] }
{
    match index_dimension(params) {
        Some(index) => Some(index),
        None => first,
    }
}

/// What a Map takes: its result, its elements, and what stands behind them.
fn map_places(
    alloc: Global,
    elements: usize,
    first: Option<u8>,
    function: &Function,
) -> Result<Items<Expected>, AllocError>
    ensures { IfOk result (λ places. places ≡ instances.places_of (record { skeleton = Map; function = 0; elements = elements }) first function.now) }
{
    let params = function.params.as_slice();
    let common = common_dimension(first, params);
    let mut places = Items::new(alloc);
    places.push(Expected::Container(common, function.ret))?;
    push_arguments(&mut places, common, elements, params)?;
    Ok(places)
}

/// What a MapReduce takes: its elements, and what stands behind them.
fn map_reduce_places(
    alloc: Global,
    elements: usize,
    first: Option<u8>,
    function: &Function,
) -> Result<Items<Expected>, AllocError>
    ensures { IfOk result (λ places. places ≡ instances.places_of (record { skeleton = MapReduce; function = 0; elements = elements }) first function.now) }
{
    let params = function.params.as_slice();
    let common = common_dimension(first, params);
    let mut places = Items::new(alloc);
    push_arguments(&mut places, common, elements, params)?;
    Ok(places)
}

/// What a Call takes: containers and uniform arguments.
fn call_places(alloc: Global, function: &Function) -> Result<Items<Expected>, AllocError>
    ensures { IfOk result (λ places. places ≡ instances.further_places 0 (functions.kinds_of function.now)) }
{
    let mut places = Items::new(alloc);
    push_further(&mut places, 0, function.params.as_slice())?;
    Ok(places)
}

/// What a MapOverlap takes: its result, the container that it reads around each place, and what stands behind it.
fn overlap_places(alloc: Global, function: &Function) -> Result<Items<Expected>, AllocError>
    ensures { IfOk result (λ places. places ≡ instances.places_of (record { skeleton = MapOverlap; function = 0; elements = 0 }) None function.now) }
{
    let params = function.params.as_slice();
    let mut places = Items::new(alloc);
    if let Some((dimension, ty)) = region_of(params) {
        places.push(Expected::Container(Some(dimension), function.ret))?;
        places.push(Expected::Container(Some(dimension), ty))?;
        push_further(&mut places, 0, params)?;
    }
    Ok(places)
}

/// A result of that dimension, two vectors of elements, and what stands behind them.
fn pairs_places(
    alloc: Global,
    dimension: u8,
    function: &Function,
) -> Result<Items<Expected>, AllocError>
    ensures { IfOk result (λ places. places ≡ Container (Some dimension) function.now.ret ∷
        instances.element_places (Some 1) 2 (functions.kinds_of function.now) ++ instances.further_places 2 (functions.kinds_of function.now)) }
{
    let params = function.params.as_slice();
    let mut places = Items::new(alloc);
    places.push(Expected::Container(Some(dimension), function.ret))?;
    push_arguments(&mut places, Some(1), 2, params)?;
    Ok(places)
}

/// Containers of two dimensions, with elements of one type.
fn operator_places(
    alloc: Global,
    first: u8,
    second: u8,
    ty: Ty,
) -> Result<Items<Expected>, AllocError>
    ensures { IfOk result (λ places. places ≡ Container (Some first) ty ∷ Container (Some second) ty ∷ []) }
{
    let mut places = Items::new(alloc);
    places.push(Expected::Container(Some(first), ty))?;
    places.push(Expected::Container(Some(second), ty))?;
    Ok(places)
}

/// What a call of an instance takes. The first argument has that dimension if it is a container.
fn places_of(
    alloc: Global,
    made: Made,
    first: Option<u8>,
    function: &Function,
) -> Result<Items<Expected>, AllocError>
    ensures { IfOk result (λ places. places ≡ instances.places_of made first function.now) }
{
    match made.skeleton {
        Skeleton::Map => map_places(alloc, made.elements, first, function),
        Skeleton::Reduce => operator_places(alloc, 1, 2, function.ret),
        Skeleton::Scan => operator_places(alloc, 1, 1, function.ret),
        Skeleton::MapReduce => map_reduce_places(alloc, made.elements, first, function),
        Skeleton::MapOverlap => overlap_places(alloc, function),
        Skeleton::MapPairs => pairs_places(alloc, 2, function),
        Skeleton::MapPairsReduce => pairs_places(alloc, 1, function),
        Skeleton::Call => call_places(alloc, function),
    }
}

/// What a Reduce takes as an expression.
fn whole_operand(alloc: Global, ty: Ty) -> Result<Use, AllocError>
    ensures { IfOk result (λ used. used ≡ Takes (Container None ty ∷ [])) }
{
    let mut places = Items::new(alloc);
    places.push(Expected::Container(None, ty))?;
    Ok(Use::Takes(places))
}

/// A use that takes these arguments.
fn taking_places(
    alloc: Global,
    made: Made,
    first: Option<u8>,
    function: &Function,
) -> Result<Use, AllocError>
    ensures { IfOk result (λ used. used ≡ Takes (instances.places_of made first function.now)) }
{
    let places = places_of(alloc, made, first, function)?;
    Ok(Use::Takes(places))
}

/// What an instance takes in an expression, with so many arguments.
pub(crate) fn value_use(
    alloc: Global,
    made: Made,
    count: usize,
    first: Option<u8>,
    function: &Function,
) -> Result<Use, AllocError>
    ensures { IfOk result (λ used. used ≡ instances.value_use made count first function.now) }
{
    match made.skeleton {
        Skeleton::Reduce => {
            if count == 2 {
                Ok(Use::Wrong(FaultKind::Mismatch))
            } else {
                whole_operand(alloc, function.ret)
            }
        }
        Skeleton::MapReduce => taking_places(alloc, made, first, function),
        Skeleton::Call => taking_places(alloc, made, first, function),
        _ => Ok(Use::Wrong(FaultKind::Mismatch)),
    }
}

/// What an instance takes as a call statement, with so many arguments.
pub(crate) fn statement_use(
    alloc: Global,
    made: Made,
    count: usize,
    first: Option<u8>,
    function: &Function,
) -> Result<Use, AllocError>
    ensures { IfOk result (λ used. used ≡ instances.statement_use made count first function.now) }
{
    match made.skeleton {
        Skeleton::Reduce => {
            if count == 1 {
                Ok(Use::Wrong(FaultKind::Mismatch))
            } else {
                taking_places(alloc, made, first, function)
            }
        }
        Skeleton::MapReduce => Ok(Use::Wrong(FaultKind::Mismatch)),
        Skeleton::Call => Ok(Use::Wrong(FaultKind::Mismatch)),
        _ => taking_places(alloc, made, first, function),
    }
}
