ghost use Rattle.std.specs.Prelude.{◌≡◌, map, IfOk, OnOk};
ghost use Rattle.sk_typing.specs.TypingFaults.{least_of};
ghost use Rattle.sk_typing.specs.TypingStatements as walks;
ghost use Rattle.sk_types.specs.Told.{seen};

use crate::around::{Around, Scopes};
use crate::least::earlier;
use crate::simple::{assign, call, declare, declare_instance, make, poke, print, set, take};
use crate::uses::value_fault;
use sk_tree::{Statement, What};
use sk_typing::Fault;
use std::alloc::{AllocError, Global};

/// The fault that is told of a statement. What it declares is in scope afterwards.
#[cycle(walked)]
pub(crate) fn walk<'a>(
    alloc: Global,
    around: &Around,
    scopes: &mut Scopes<'a>,
    statement: &'a Statement,
) -> Result<Option<Fault>, AllocError>
    ensures told { IfOk result (λ told. told ≡ least_of (walks.walking_of statement.now (seen around.now) scopes.old).faults) }
    ensures names { OnOk result (scopes.new ≡ (walks.walking_of statement.now (seen around.now) scopes.old).names) }
{
    let here = around.at(statement.line);
    match &statement.what {
        What::Declare(ty, name, expr) => declare(alloc, &here, scopes, *ty, name, expr),
        What::Assign(name, expr) => assign(alloc, &here, scopes, name, expr),
        What::Poke(name, places, expr) => poke(alloc, &here, scopes, name, places.as_slice(), expr),
        What::Make(dimension, ty, name, arguments) => {
            make(
                alloc,
                &here,
                scopes,
                *dimension,
                *ty,
                name,
                arguments.as_slice(),
            )
        }
        What::Take(dimension, ty, name, _) => take(&here, scopes, *dimension, *ty, name),
        What::Instance(instance) => declare_instance(&here, scopes, instance),
        What::Set(name, setting) => set(alloc, &here, scopes, name, setting),
        What::Call(name, arguments) => call(alloc, &here, scopes, name, arguments.as_slice()),
        What::Print(items) => print(alloc, &here, scopes, items.as_slice()),
        What::If(test, one, other) => {
            let inner = here.inside();
            let tested = value_fault(alloc, &here, scopes, test)?;
            let first = walk_block(alloc, &inner, scopes, one.as_slice())?;
            let second = walk_block(alloc, &inner, scopes, other.as_slice())?;
            Ok(earlier(earlier(tested, first), second))
        }
        What::For(first, test, step, body) => {
            let inner = here.inside();
            let depth = scopes.depth();
            let begun = walk(alloc, &inner, scopes, first.get())?;
            let tested = value_fault(alloc, &inner, scopes, test)?;
            let turned = walk_block(alloc, &inner, scopes, body.as_slice())?;
            let stepped = walk(alloc, &inner, scopes, step.get())?;
            scopes.leave(depth);
            Ok(earlier(earlier(earlier(begun, tested), turned), stepped))
        }
        What::Return(expr) => value_fault(alloc, &here, scopes, expr),
    }
}

/// The fault that is told of the statements of a block, whose names are in scope up to its end.
#[cycle(walked)]
pub(crate) fn walk_block<'a>(
    alloc: Global,
    around: &Around,
    scopes: &mut Scopes<'a>,
    statements: &'a [Statement],
) -> Result<Option<Fault>, AllocError>
    ensures told { IfOk result (λ told. told ≡
        least_of (walks.in_order (map walks.walking_of statements.now) (seen around.now) scopes.old).faults) }
    ensures names { OnOk result (scopes.new ≡ scopes.old) }
{
    let depth = scopes.depth();
    let mut least = None;
    for next in statements {
        let told = walk(alloc, around, scopes, next)?;
        least = earlier(least, told);
    }
    scopes.leave(depth);
    Ok(least)
}
