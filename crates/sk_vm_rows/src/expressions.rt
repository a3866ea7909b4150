//! Expressions as trees.
ghost use Rattle.std.specs.Prelude.{◌≡◌, ◌<◌, ◌^◌, IfOk};
ghost use Rattle.sk_tree.specs.declared.tree.Expr.TheVariants as expr;
ghost use Rattle.sk_vm_rows.specs.Programs.{named, int, long, quotient, counted, guarded, inverse, distance};

use sk_base::{Op, Ty};
use sk_names::Name;
use sk_tree::{Expr, Un};
use sqlite_items::{Boxed, Items};
use std::alloc::{AllocError, Global};

/// A name.
pub fn named(alloc: Global, name: &[u8]) -> Result<Expr, AllocError>
    ensures { IfOk result (λ made. made ≡ named name.now) }
{
    Ok(Expr::Name(Name::from_slice(alloc, name)?))
}

/// A literal int.
pub fn int(number: u32) -> Expr
    ensures { result ≡ int number }
{
    Expr::Number(Ty::Int, i64::from(number))
}

/// A literal long.
pub fn long(number: u64) -> Expr
    requires { number < 2 ^ 63 }
    ensures { result ≡ long number }
{
    Expr::Number(Ty::Long, number as i64)
}

/// An operator with its operands.
pub fn binary(alloc: Global, op: Op, left: Expr, right: Expr) -> Result<Expr, AllocError>
    ensures { IfOk result (λ made. made ≡ expr.Binary op left right) }
{
    let left = Boxed::new(alloc, left)?;
    let right = Boxed::new(alloc, right)?;
    Ok(Expr::Binary(op, left, right))
}

/// `a / b`
pub fn quotient(alloc: Global) -> Result<Expr, AllocError>
    ensures { IfOk result (λ made. made ≡ quotient) }
{
    let dividend = named(alloc, b"a")?;
    let divisor = named(alloc, b"b")?;
    binary(alloc, Op::Div, dividend, divisor)
}

/// `f(a)`
pub fn counted(alloc: Global) -> Result<Expr, AllocError>
    ensures { IfOk result (λ made. made ≡ counted) }
{
    let name = Name::from_slice(alloc, b"f")?;
    let argument = named(alloc, b"a")?;
    let arguments = vec![in alloc; argument]?;
    Ok(Expr::Apply(name, Items::from_vec(arguments)))
}

/// `10 / a`
pub fn inverse(alloc: Global) -> Result<Expr, AllocError>
    ensures { IfOk result (λ made. made ≡ inverse) }
{
    binary(alloc, Op::Div, int(10), named(alloc, b"a")?)
}

/// `a > 0 && 10 / a > 2`
pub fn guarded(alloc: Global) -> Result<Expr, AllocError>
    ensures { IfOk result (λ made. made ≡ guarded) }
{
    let guard = binary(alloc, Op::Gt, named(alloc, b"a")?, int(0))?;
    let test = binary(alloc, Op::Gt, inverse(alloc)?, int(2))?;
    let left = Boxed::new(alloc, guard)?;
    let right = Boxed::new(alloc, test)?;
    Ok(Expr::Both(left, right))
}

/// `a < 0 ? -a : a`
pub fn distance(alloc: Global) -> Result<Expr, AllocError>
    ensures { IfOk result (λ made. made ≡ distance) }
{
    let negative = binary(alloc, Op::Lt, named(alloc, b"a")?, int(0))?;
    let test = Boxed::new(alloc, negative)?;
    let part = Boxed::new(alloc, named(alloc, b"a")?)?;
    let one = Boxed::new(alloc, Expr::Unary(Un::Neg, part))?;
    let other = Boxed::new(alloc, named(alloc, b"a")?)?;
    Ok(Expr::Choose(test, one, other))
}
