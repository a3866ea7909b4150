//! The program of the rows, as a tree.
ghost use Rattle.std.specs.Prelude.{◌≡◌, [], ◌∷◌, ◌++◌, IfOk, OnOk};
ghost use Rattle.sk_vm_rows.specs.Programs.{rows_program, counting, counting_body, dividing, calling, guarding, choosing, widening, widening_body, truncating, truncating_body, inverting, main, main_body};

use crate::expressions::{binary, counted, distance, guarded, int, inverse, long, named, quotient};
use crate::functions::{
    int_param, push_declaration, push_function, push_instance, push_loop, push_return,
};
use sk_base::{Op, Ty};
use sk_names::Name;
use sk_tree::{Function, Program, Skeleton, Statement};
use sqlite_items::Items;
use std::alloc::{AllocError, Global};

/// The whole program.
pub fn program(alloc: Global) -> Result<Program, AllocError>
    ensures { IfOk result (λ program. program ≡ rows_program) }
{
    let mut functions = Items::new(alloc);
    push_counting(alloc, &mut functions)?;
    push_dividing(alloc, &mut functions)?;
    push_calling(alloc, &mut functions)?;
    push_guarding(alloc, &mut functions)?;
    push_choosing(alloc, &mut functions)?;
    push_widening(alloc, &mut functions)?;
    push_truncating(alloc, &mut functions)?;
    push_inverting(alloc, &mut functions)?;
    push_main(alloc, &mut functions)?;
    Ok(Program { functions })
}

fn push_counting(alloc: Global, functions: &mut Items<Function>) -> Result<(), AllocError>
    ensures { OnOk result (functions.new ≡ functions.old ++ counting ∷ []) }
{
    let params = int_param(alloc, b"a")?;
    let body = counting_body(alloc)?;
    push_function(alloc, Ty::Int, b"f", params, body, functions)
}

fn counting_body(alloc: Global) -> Result<Items<Statement>, AllocError>
    ensures { IfOk result (λ body. body ≡ counting_body) }
{
    let mut body = Items::new(alloc);
    push_declaration(alloc, Ty::Int, b"s", int(0), &mut body)?;
    push_loop(alloc, &mut body)?;
    push_return(named(alloc, b"s")?, &mut body)?;
    Ok(body)
}

fn push_dividing(alloc: Global, functions: &mut Items<Function>) -> Result<(), AllocError>
    ensures { OnOk result (functions.new ≡ functions.old ++ dividing ∷ []) }
{
    let mut params = int_param(alloc, b"a")?;
    params.append(int_param(alloc, b"b")?)?;
    let mut body = Items::new(alloc);
    push_return(quotient(alloc)?, &mut body)?;
    push_function(alloc, Ty::Int, b"d", params, body, functions)
}

fn push_calling(alloc: Global, functions: &mut Items<Function>) -> Result<(), AllocError>
    ensures { OnOk result (functions.new ≡ functions.old ++ calling ∷ []) }
{
    let sum = binary(alloc, Op::Add, counted(alloc)?, counted(alloc)?)?;
    let mut body = Items::new(alloc);
    push_return(sum, &mut body)?;
    let params = int_param(alloc, b"a")?;
    push_function(alloc, Ty::Int, b"g", params, body, functions)
}

fn push_guarding(alloc: Global, functions: &mut Items<Function>) -> Result<(), AllocError>
    ensures { OnOk result (functions.new ≡ functions.old ++ guarding ∷ []) }
{
    let params = int_param(alloc, b"a")?;
    let mut body = Items::new(alloc);
    push_return(guarded(alloc)?, &mut body)?;
    push_function(alloc, Ty::Int, b"n", params, body, functions)
}

fn push_choosing(alloc: Global, functions: &mut Items<Function>) -> Result<(), AllocError>
    ensures { OnOk result (functions.new ≡ functions.old ++ choosing ∷ []) }
{
    let params = int_param(alloc, b"a")?;
    let mut body = Items::new(alloc);
    push_return(distance(alloc)?, &mut body)?;
    push_function(alloc, Ty::Int, b"c", params, body, functions)
}

fn push_widening(alloc: Global, functions: &mut Items<Function>) -> Result<(), AllocError>
    ensures { OnOk result (functions.new ≡ functions.old ++ widening ∷ []) }
{
    let params = int_param(alloc, b"a")?;
    let body = widening_body(alloc)?;
    push_function(alloc, Ty::Long, b"w", params, body, functions)
}

fn widening_body(alloc: Global) -> Result<Items<Statement>, AllocError>
    ensures { IfOk result (λ body. body ≡ widening_body) }
{
    let mut body = Items::new(alloc);
    push_declaration(alloc, Ty::Long, b"x", named(alloc, b"a")?, &mut body)?;
    let product = binary(alloc, Op::Mul, named(alloc, b"x")?, long(4294967296))?;
    push_return(product, &mut body)?;
    Ok(body)
}

fn push_truncating(alloc: Global, functions: &mut Items<Function>) -> Result<(), AllocError>
    ensures { OnOk result (functions.new ≡ functions.old ++ truncating ∷ []) }
{
    let params = int_param(alloc, b"a")?;
    let body = truncating_body(alloc)?;
    push_function(alloc, Ty::Int, b"t", params, body, functions)
}

fn truncating_body(alloc: Global) -> Result<Items<Statement>, AllocError>
    ensures { IfOk result (λ body. body ≡ truncating_body) }
{
    let mut body = Items::new(alloc);
    push_declaration(alloc, Ty::Long, b"x", named(alloc, b"a")?, &mut body)?;
    let sum = binary(alloc, Op::Add, named(alloc, b"x")?, long(2147483647))?;
    push_declaration(alloc, Ty::Int, b"y", sum, &mut body)?;
    push_return(named(alloc, b"y")?, &mut body)?;
    Ok(body)
}

fn push_inverting(alloc: Global, functions: &mut Items<Function>) -> Result<(), AllocError>
    ensures { OnOk result (functions.new ≡ functions.old ++ inverting ∷ []) }
{
    let params = int_param(alloc, b"a")?;
    let mut body = Items::new(alloc);
    push_return(inverse(alloc)?, &mut body)?;
    push_function(alloc, Ty::Int, b"v", params, body, functions)
}

fn push_main(alloc: Global, functions: &mut Items<Function>) -> Result<(), AllocError>
    ensures { OnOk result (functions.new ≡ functions.old ++ main ∷ []) }
{
    let body = main_body(alloc)?;
    push_function(alloc, Ty::Int, b"main", Items::new(alloc), body, functions)
}

fn main_body(alloc: Global) -> Result<Items<Statement>, AllocError>
    ensures { IfOk result (λ body. body ≡ main_body) }
{
    let mut body = Items::new(alloc);
    let calling = Name::from_slice(alloc, b"g")?;
    let mapped = Items::from_vec(vec![in alloc; calling]?);
    push_instance(alloc, b"m", Skeleton::Map, mapped, &mut body)?;
    let choosing = Name::from_slice(alloc, b"c")?;
    let dividing = Name::from_slice(alloc, b"d")?;
    let reduced = Items::from_vec(vec![in alloc; choosing, dividing]?);
    push_instance(alloc, b"r", Skeleton::MapReduce, reduced, &mut body)?;
    push_return(int(0), &mut body)?;
    Ok(body)
}
