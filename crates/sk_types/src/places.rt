ghost use Rattle.std.specs.Prelude.{◌≡◌, ◌++◌, ◌-◌, map, length, OnOk, IfOk};
ghost use Rattle.sk_typing.specs.TypingInstances as instances;
ghost use Rattle.sk_typing.specs.TypingNames as names;

use crate::kinds::scalar_count;
use sk_tree::{Param, ParamKind};
use sk_typing::Expected;
use sqlite_items::Items;
use std::alloc::{AllocError, Global};

/// Adds so many values.
pub(crate) fn push_numbers(places: &mut Items<Expected>, count: usize) -> Result<(), AllocError>
    ensures { OnOk result (places.new ≡ places.old ++ names.numbers count) }
{
    for _i in 0..count {
        places.push(Expected::Number)?;
    }
    Ok(())
}

/// So many values.
pub(crate) fn numbers(alloc: Global, count: usize) -> Result<Items<Expected>, AllocError>
    ensures { IfOk result (λ places. places ≡ names.numbers count) }
{
    let mut places = Items::new(alloc);
    push_numbers(&mut places, count)?;
    Ok(places)
}

/// Adds containers of that dimension for the first scalars among parameters.
pub(crate) fn push_elements(
    places: &mut Items<Expected>,
    dimension: Option<u8>,
    count: usize,
    params: &[Param],
) -> Result<(), AllocError>
    ensures { OnOk result (places.new ≡ places.old ++ instances.element_places dimension count (map (λ param. param.kind) params.now)) }
{
    if count == 0 {
        return Ok(());
    }
    match params {
        [] => Ok(()),
        [first, rest @ ..] => match first.kind {
            ParamKind::Scalar(ty) => {
                places.push(Expected::Container(dimension, ty))?;
                push_elements(places, dimension, count - 1, rest)
            }
            _ => push_elements(places, dimension, count, rest),
        },
    }
}

/// Adds the containers that are given for proxies.
pub(crate) fn push_proxies(places: &mut Items<Expected>, params: &[Param]) -> Result<(), AllocError>
    ensures { OnOk result (places.new ≡ places.old ++ names.proxy_places (map (λ param. param.kind) params.now)) }
{
    match params {
        [] => Ok(()),
        [first, rest @ ..] => match first.kind {
            ParamKind::Proxy(dimension, ty) => {
                places.push(Expected::Container(Some(dimension), ty))?;
                push_proxies(places, rest)
            }
            _ => push_proxies(places, rest),
        },
    }
}

/// Adds what stands behind elements or a region: the containers, and then the uniform arguments.
pub(crate) fn push_further(
    places: &mut Items<Expected>,
    count: usize,
    params: &[Param],
) -> Result<(), AllocError>
    ensures { OnOk result (places.new ≡ places.old ++ instances.further_places count (map (λ param. param.kind) params.now)) }
{
    push_proxies(places, params)?;
    push_numbers(places, scalar_count(params).saturating_sub(count))
}
