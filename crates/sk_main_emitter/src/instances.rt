ghost use Rattle.std.specs.Prelude.{◌≡◌, map, IfOk};
ghost use Rattle.sk_arguments.specs.Arguments as arguments;
ghost use Rattle.sk_arguments.specs.Operands as operands;
ghost use Rattle.sk_emitter.specs.Names.{callee_of};
ghost use Rattle.sk_main_emitter.specs.Names.{made_in, uniform_kinds};
ghost use Rattle.sk_main_emitter.specs.Statements.{first_bound, region_or};
ghost use Rattle.sk_main_scheme.specs.MainScheme as scheme;
ghost use Rattle.sk_scheme.specs.Scheme.{kinds_of};
ghost use Rattle.std.specs.Option.{option_map};
ghost use Rattle.sk_tree.specs.declared.tree.ParamKind.TheVariants.{Scalar};

use crate::named::Made;
use sk_base::Ty;
use sk_emitter::{Callee, InScope, elements, sum};
use sk_names::Name;
use sk_tree::{Instance, Param, ParamKind, Skeleton};
use sqlite_items::Items;
use std::alloc::{AllocError, Global};

/// How many parameters are given whole containers.
fn proxies_in(params: &[Param]) -> usize
    ensures { result ≡ operands.proxies_in (kinds_of params.now) }
{
    let mut count = 0;
    for param in params {
        if let ParamKind::Proxy(_, _) = param.kind {
            count += 1;
        }
    }
    count
}

/// How many containers a call takes for the elements of its function, the operands of its operator or its region.
fn element_operands(skeleton: Skeleton, elements: u32) -> u32
    ensures { result ≡ operands.element_operands skeleton elements }
{
    match skeleton {
        Skeleton::Reduce | Skeleton::Scan | Skeleton::MapOverlap => 1,
        Skeleton::Map
        | Skeleton::MapReduce
        | Skeleton::MapPairs
        | Skeleton::MapPairsReduce
        | Skeleton::Call => elements,
    }
}

/// How many containers a call takes beside its result.
pub(crate) fn operands(made: &Made<'_>) -> Result<usize, AllocError>
    ensures { IfOk result (λ count. count ≡ scheme.operands_of (made_in made.now)) }
{
    let elements = element_operands(made.skeleton, made.elements);
    sum(elements as usize, proxies_in(made.params))
}

/// The kinds of the scalars behind these many.
fn later_scalars(
    alloc: Global,
    elements: u32,
    params: &[Param],
) -> Result<Items<ParamKind>, AllocError>
    ensures { IfOk result (λ kinds. kinds ≡ map Scalar (arguments.uniform_types elements (kinds_of params.now))) }
{
    let mut kinds = Items::new(alloc);
    let mut left = elements;
    for param in params {
        if let ParamKind::Scalar(ty) = param.kind {
            if left > 0 {
                left -= 1;
            } else {
                kinds.push(ParamKind::Scalar(ty))?;
            }
        }
    }
    Ok(kinds)
}

/// The kinds of the parameters that the uniform arguments of a call are for. An operator has none.
pub(crate) fn uniforms(alloc: Global, made: &Made<'_>) -> Result<Items<ParamKind>, AllocError>
    ensures { IfOk result (λ kinds. kinds ≡ uniform_kinds (made_in made.now)) }
{
    match made.skeleton {
        Skeleton::Reduce | Skeleton::Scan => Ok(Items::new(alloc)),
        Skeleton::Map
        | Skeleton::MapReduce
        | Skeleton::MapOverlap
        | Skeleton::MapPairs
        | Skeleton::MapPairsReduce
        | Skeleton::Call => later_scalars(alloc, made.elements, made.params),
    }
}

/// The type of the elements that a region among parameters has, or another type.
pub(crate) fn region_type(params: &[Param], other: Ty) -> Ty
    ensures { result ≡ region_or (kinds_of params.now) other }
{
    for param in params {
        match param.kind {
            ParamKind::Region(_, ty) => return ty,
            ParamKind::Index(_) => {}
            _ => return other,
        }
    }
    other
}

/// The first of the functions that an instance is made of.
fn first<'a>(functions: &InScope<'a>, names: &[Name]) -> Option<Callee<'a>>
    ensures { option_map callee_of result ≡ first_bound functions.now.functions names.now }
{
    match names.first() {
        Some(name) => functions.callee(name.as_bytes()),
        None => None,
    }
}

/// The instance of a number that a declaration makes.
pub(crate) fn made<'a>(
    functions: &InScope<'a>,
    number: u32,
    instance: &Instance,
) -> Result<Made<'a>, AllocError>
    ensures { IfOk result (λ made. made_in made ≡ scheme.made_of functions.now.functions number instance.now) }
{
    let skeleton = instance.skeleton;
    match first(functions, instance.functions.as_slice()) {
        Some(callee) => {
            let params = callee.function.params.as_slice();
            Ok(Made {
                number,
                skeleton,
                elements: elements(skeleton, instance.numbers.as_slice(), params)?,
                params,
                ret: callee.function.ret,
            })
        }
        None => Ok(Made {
            number,
            skeleton,
            elements: 0,
            params: &[],
            ret: Ty::Int,
        }),
    }
}
