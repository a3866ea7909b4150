ghost use Rattle.std.specs.Prelude.{◌≡◌, ◌≤◌, ◌+◌, ◌||◌, ◌∷◌, length, IfOk, OnOk};
ghost use Rattle.std.specs.List.{list_any};
ghost use Rattle.sk_typing.specs.Typing as typing;
ghost use Rattle.sk_typing.specs.TypingFaults.{earlier, least_of};
ghost use Rattle.sk_typing.specs.TypingNames as names;
ghost use Rattle.sk_typing.specs.TypingStatements as walks;
ghost use Rattle.sk_typing.specs.declared.names.Known.TheVariants.{Function as FunctionName};
ghost use Rattle.sk_types.specs.Told.{seen};

use crate::around::{Around, Scopes};
use crate::fields::spells;
use crate::kinds::{are_ordered, same_type};
use crate::least::earlier;
use crate::returning::block_returns;
use crate::simple::twice_fault;
use crate::statement::walk_block;
use sk_base::Ty;
use sk_tree::{Function, Param, Statement};
use sk_typing::{Fault, FaultKind, Known};
use std::alloc::{AllocError, Global};

/// Whether a function is named main.
fn is_named_main(function: &Function) -> bool
    ensures { result ≡ typing.is_named_main function.now }
{
    spells(function.name.as_bytes(), "main")
}

/// Whether a function is headed `int main()`.
pub(crate) fn is_main_header(function: &Function) -> bool
    ensures { result ≡ typing.is_main_header function.now }
{
    is_named_main(function)
        && same_type(function.ret, Ty::Int)
        && function.params.as_slice().is_empty()
}

/// Whether a function is main, which stands last.
fn is_main(function: &Function, behind: &[Function]) -> bool
    ensures { result ≡ typing.is_main function.now behind.now }
{
    match behind {
        [] => is_main_header(function),
        [_, ..] => false,
    }
}

/// Whether one of these functions is named main.
pub(crate) fn names_main(functions: &[Function]) -> bool
    ensures { result ≡ list_any typing.is_named_main functions.now }
{
    match functions {
        [] => false,
        [first, rest @ ..] => is_named_main(first) || names_main(rest),
    }
}

/// The fault that is told of parameters. They are in scope afterwards.
fn params_fault<'a>(
    around: &Around,
    scopes: &mut Scopes<'a>,
    params: &'a [Param],
) -> Result<Option<Fault>, AllocError>
    ensures told { IfOk result (λ told. told ≡ least_of (typing.params_walked (seen around.now) scopes.old params.now).faults) }
    ensures names { OnOk result (scopes.new ≡ (typing.params_walked (seen around.now) scopes.old params.now).names) }
{
    match params {
        [] => Ok(None),
        [first, rest @ ..] => {
            let twice = twice_fault(around, scopes, first.name.as_bytes());
            scopes.declare(first.name.as_bytes(), Known::Variable(first.kind))?;
            let more = params_fault(around, scopes, rest)?;
            Ok(earlier(twice, more))
        }
    }
}

/// Whether a function may end so: main, or a block that returns.
fn may_end(around: &Around, statements: &[Statement]) -> bool
    ensures { result ≡ (around.now.in_main || walks.block_returns statements.now) }
{
    around.in_main || block_returns(statements)
}

/// The fault that is told of a function whose name is in scope.
fn body_fault<'a>(
    alloc: Global,
    around: &Around,
    scopes: &mut Scopes<'a>,
    function: &'a Function,
) -> Result<Option<Fault>, AllocError>
    ensures told { IfOk result (λ told. told ≡ least_of (typing.body_faults (seen around.now) scopes.old function.now)) }
    ensures names { OnOk result (scopes.new ≡ scopes.old) }
{
    let depth = scopes.depth();
    let params = function.params.as_slice();
    let declared = params_fault(around, scopes, params)?;
    let ordered = around.unless(are_ordered(params), FaultKind::Mismatch);
    let statements = function.body.as_slice();
    let body = walk_block(alloc, around, scopes, statements)?;
    let ended = around.unless(may_end(around, statements), FaultKind::NoReturn);
    scopes.leave(depth);
    Ok(earlier(earlier(earlier(declared, ordered), body), ended))
}

/// The fault that is told of the function of that number, which is the last one or not. Its name is in scope afterwards.
fn function_fault<'a>(
    alloc: Global,
    around: &Around,
    scopes: &mut Scopes<'a>,
    function: &'a Function,
) -> Result<Option<Fault>, AllocError>
    ensures told { IfOk result (λ told. told ≡ earlier (least_of (names.twice_faults (seen around.now) scopes.old function.now.name))
        (least_of (typing.body_faults (seen around.now) ((function.now.name, FunctionName around.now.number) ∷ scopes.old) function.now))) }
    ensures names { OnOk result (scopes.new ≡ (function.now.name, FunctionName around.now.number) ∷ scopes.old) }
{
    let twice = twice_fault(around, scopes, function.name.as_bytes());
    scopes.declare(function.name.as_bytes(), Known::Function(around.number))?;
    let body = body_fault(alloc, around, scopes, function)?;
    Ok(earlier(twice, body))
}

/// The fault that is told of the functions from a number on.
pub(crate) fn functions_fault<'a>(
    alloc: Global,
    scopes: &mut Scopes<'a>,
    all: &'a [Function],
    number: usize,
    functions: &'a [Function],
) -> Result<Option<Fault>, AllocError>
    requires { number + length functions.now ≤ length all.now }
    ensures { IfOk result (λ told. told ≡ least_of (typing.functions_faults all.now number scopes.old functions.now)) }
{
    match functions {
        [] => Ok(None),
        [first, rest @ ..] => {
            let around = Around {
                functions: all,
                number,
                in_main: is_main(first, rest),
                outermost: true,
                line: first.line,
            };
            let told = function_fault(alloc, &around, scopes, first)?;
            let more = functions_fault(alloc, scopes, all, number + 1, rest)?;
            Ok(earlier(told, more))
        }
    }
}
