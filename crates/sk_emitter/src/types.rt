ghost use Rattle.std.specs.Prelude.{◌≡◌, IfOk};
ghost use Rattle.sk_meaning.specs.Evaluation as evaluation;
ghost use Rattle.sk_meaning.specs.Expressions as expressions;
ghost use Rattle.sk_scheme.specs.Scheme as scheme;

use sk_base::{Op, Ty};
use sk_tree::{Param, ParamKind, Un};
use std::alloc::{AllocError, Global};

/// `long` where either side is.
pub(crate) fn wider(left: Ty, right: Ty) -> Ty
    ensures { result ≡ expressions.wider left right }
{
    match left {
        Ty::Int => right,
        Ty::Long => Ty::Long,
    }
}

/// The type in which an operator computes.
pub(crate) fn operation_type(op: Op, left: Ty, right: Ty) -> Ty
    ensures { result ≡ expressions.operation_type op left right }
{
    match op {
        Op::Shl => left,
        Op::Shr => left,
        _ => wider(left, right),
    }
}

/// The type of an operator's value.
pub(crate) fn result_type(op: Op, left: Ty, right: Ty) -> Ty
    ensures { result ≡ expressions.result_type op left right }
{
    match op {
        Op::Lt => Ty::Int,
        Op::Le => Ty::Int,
        Op::Gt => Ty::Int,
        Op::Ge => Ty::Int,
        Op::Eq => Ty::Int,
        Op::Ne => Ty::Int,
        _ => operation_type(op, left, right),
    }
}

/// The type of a prefix's value.
pub(crate) fn prefix_type(op: Un, ty: Ty) -> Ty
    ensures { result ≡ expressions.prefix_type op ty }
{
    match op {
        Un::Not => Ty::Int,
        _ => ty,
    }
}

/// The type of a scalar, or of an element.
pub fn kind_type(kind: ParamKind) -> Ty
    ensures { result ≡ evaluation.kind_type kind }
{
    match kind {
        ParamKind::Scalar(ty) => ty,
        ParamKind::Index(_) => Ty::Int,
        ParamKind::Proxy(_, ty) => ty,
        ParamKind::Region(_, ty) => ty,
    }
}

/// The kinds of a function's parameters.
pub fn kinds(alloc: Global, params: &[Param]) -> Result<Vec<ParamKind>, AllocError>
    ensures { IfOk result (λ kinds. kinds.items ≡ scheme.kinds_of params.now) }
{
    let mut kinds = Vec::new(alloc);
    for param in params {
        kinds.push(param.kind)?;
    }
    Ok(kinds)
}
