ghost use Rattle.std.specs.Prelude.{◌≡◌, ◌≤◌, map, length};
ghost use Rattle.std.specs.List.{list_any};
ghost use Rattle.sk_tree.specs.Parameters as parameters;
ghost use Rattle.sk_tree.specs.Skeletons as skeletons;

use sk_base::Ty;
use sk_tree::{Param, ParamKind};

/// Whether a parameter is a scalar.
pub(crate) fn is_scalar(kind: ParamKind) -> bool
    ensures { result ≡ parameters.is_scalar kind }
{
    matches!(kind, ParamKind::Scalar(_))
}

/// Whether a parameter is a region.
pub(crate) fn is_region(kind: ParamKind) -> bool
    ensures { result ≡ parameters.is_region kind }
{
    matches!(kind, ParamKind::Region(_, _))
}

/// Whether two types are the same.
pub(crate) fn same_type(ty: Ty, other: Ty) -> bool
    ensures { result ≡ parameters.same_type ty other }
{
    match ty {
        Ty::Int => matches!(other, Ty::Int),
        Ty::Long => matches!(other, Ty::Long),
    }
}

/// Whether all parameters are scalars.
pub(crate) fn scalars_only(params: &[Param]) -> bool
    ensures { result ≡ parameters.scalars_only (map (λ param. param.kind) params.now) }
{
    match params {
        [] => true,
        [first, rest @ ..] => is_scalar(first.kind) && scalars_only(rest),
    }
}

/// Whether parameters are containers, and then scalars.
fn proxies_then_scalars(params: &[Param]) -> bool
    ensures { result ≡ parameters.proxies_then_scalars (map (λ param. param.kind) params.now) }
{
    match params {
        [first, rest @ ..] => match first.kind {
            ParamKind::Proxy(_, _) => proxies_then_scalars(rest),
            _ => scalars_only(params),
        },
        [] => true,
    }
}

/// Whether parameters are scalars, then containers, and then scalars.
fn scalars_then_proxies(params: &[Param]) -> bool
    ensures { result ≡ parameters.scalars_then_proxies (map (λ param. param.kind) params.now) }
{
    match params {
        [first, rest @ ..] => match first.kind {
            ParamKind::Scalar(_) => scalars_then_proxies(rest),
            _ => proxies_then_scalars(params),
        },
        [] => true,
    }
}

/// Whether parameters stand in order behind an index, if there is one.
fn ordered_after_index(params: &[Param]) -> bool
    ensures { result ≡ parameters.ordered_after_index (map (λ param. param.kind) params.now) }
{
    match params {
        [first, rest @ ..] => match first.kind {
            ParamKind::Region(_, _) => proxies_then_scalars(rest),
            _ => scalars_then_proxies(params),
        },
        [] => true,
    }
}

/// Whether parameters stand in the order index, scalars or one region, proxies, scalars.
pub(crate) fn are_ordered(params: &[Param]) -> bool
    ensures { result ≡ parameters.are_ordered (map (λ param. param.kind) params.now) }
{
    match params {
        [first, rest @ ..] => match first.kind {
            ParamKind::Index(_) => ordered_after_index(rest),
            _ => ordered_after_index(params),
        },
        [] => true,
    }
}

/// Whether a parameter is a region.
pub(crate) fn has_region(params: &[Param]) -> bool
    ensures { result ≡ list_any parameters.is_region (map (λ param. param.kind) params.now) }
{
    match params {
        [] => false,
        [first, rest @ ..] => is_region(first.kind) || has_region(rest),
    }
}

/// How many scalars stand before the first container.
pub(crate) fn leading_scalars(params: &[Param]) -> usize
    ensures value { result ≡ parameters.leading_scalars (map (λ param. param.kind) params.now) }
    ensures within { result ≤ length params.now }
{
    match params {
        [] => 0,
        [first, rest @ ..] => match first.kind {
            ParamKind::Scalar(_) => leading_scalars(rest) + 1,
            ParamKind::Index(_) => leading_scalars(rest),
            ParamKind::Proxy(_, _) => 0,
            ParamKind::Region(_, _) => 0,
        },
    }
}

/// How many parameters are scalars.
pub(crate) fn scalar_count(params: &[Param]) -> usize
    ensures value { result ≡ length (parameters.scalar_types (map (λ param. param.kind) params.now)) }
    ensures within { result ≤ length params.now }
{
    match params {
        [] => 0,
        [first, rest @ ..] => match first.kind {
            ParamKind::Scalar(_) => scalar_count(rest) + 1,
            _ => scalar_count(rest),
        },
    }
}

/// The dimension of the index parameter, which stands first.
pub(crate) fn index_dimension(params: &[Param]) -> Option<u8>
    ensures { result ≡ parameters.index_dimension (map (λ param. param.kind) params.now) }
{
    match params {
        [] => None,
        [first, ..] => match first.kind {
            ParamKind::Index(dimension) => Some(dimension),
            _ => None,
        },
    }
}

/// Whether the index parameter, if there is one, has that dimension.
pub(crate) fn index_fits(params: &[Param], dimension: u8) -> bool
    ensures { result ≡ parameters.index_fits (map (λ param. param.kind) params.now) dimension }
{
    match index_dimension(params) {
        Some(index) => index == dimension,
        None => true,
    }
}

/// The dimension and the element type of the region parameter, which stands first or behind the index.
pub(crate) fn region_of(params: &[Param]) -> Option<(u8, Ty)>
    ensures { result ≡ parameters.region_of (map (λ param. param.kind) params.now) }
{
    match params {
        [] => None,
        [first, rest @ ..] => match first.kind {
            ParamKind::Region(dimension, ty) => Some((dimension, ty)),
            ParamKind::Index(_) => region_of(rest),
            _ => None,
        },
    }
}

/// Whether a function with these parameters and this return type is an operator of the type.
pub(crate) fn is_operator(ty: Ty, params: &[Param]) -> bool
    ensures { result ≡ skeletons.is_operator ty (map (λ param. param.kind) params.now) }
{
    match params {
        [left, right] => match left.kind {
            ParamKind::Scalar(left_ty) => match right.kind {
                ParamKind::Scalar(right_ty) => same_type(left_ty, ty) && same_type(right_ty, ty),
                _ => false,
            },
            _ => false,
        },
        _ => false,
    }
}
