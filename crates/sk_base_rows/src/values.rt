//! Values of operators.
ghost use Rattle.std.specs.Prelude.{IfSome};
ghost use Rattle.sk_base.specs.Arithmetic.{InRange};

use crate::words::parted_at;
use sk_base::{Cell, Op, Trap, Ty, binary, convert, wrap};
use std::alloc::{AllocError, Global};

/// The value of a row, or its trap.
pub fn value(alloc: Global, text: &str) -> Result<Option<String>, AllocError> {
    let (word, rest) = parted_at(text, ' ');
    let (ty, operands) = parted_at(rest, ' ');
    let (left, right) = parted_at(operands, ' ');
    match found(word, ty, left, right) {
        Some(Ok(cell)) => Ok(Some(format!(in alloc; "{cell}")?)),
        Some(Err(trap)) => Ok(Some(format!(in alloc; "{trap:?}")?)),
        None => Ok(None),
    }
}

/// The value of these words, if they are a call.
fn found(word: &str, ty: &str, left: &str, right: &str) -> Option<Result<Cell, Trap>> {
    let ty = type_of(ty)?;
    if word == "wrap" {
        Some(Ok(wrap(ty, left.parse().ok()?)))
    } else if word == "convert" {
        Some(Ok(convert(ty, left.parse().ok()?)))
    } else if word == "<<" {
        Some(binary(Op::Shl, ty, operand(ty, left)?, right.parse().ok()?))
    } else if word == ">>" {
        Some(binary(Op::Shr, ty, operand(ty, left)?, right.parse().ok()?))
    } else {
        let op = operator(word)?;
        Some(binary(op, ty, operand(ty, left)?, operand(ty, right)?))
    }
}

/// The type with this name.
fn type_of(word: &str) -> Option<Ty> {
    if word == "int" {
        Some(Ty::Int)
    } else if word == "long" {
        Some(Ty::Long)
    } else {
        None
    }
}

/// A number of the type.
fn operand(ty: Ty, word: &str) -> Option<Cell>
    ensures { IfSome result (λ cell. InRange ty cell) }
{
    match ty {
        Ty::Int => {
            let number: i32 = word.parse().ok()?;
            Some(Cell::from(number))
        }
        Ty::Long => word.parse().ok(),
    }
}

/// The operator with this sign, if it is not a shift.
fn operator(sign: &str) -> Option<Op> {
    if sign == "+" {
        Some(Op::Add)
    } else if sign == "-" {
        Some(Op::Sub)
    } else if sign == "*" {
        Some(Op::Mul)
    } else if sign == "/" {
        Some(Op::Div)
    } else if sign == "%" {
        Some(Op::Rem)
    } else if sign == "&" {
        Some(Op::And)
    } else if sign == "|" {
        Some(Op::Or)
    } else if sign == "^" {
        Some(Op::Xor)
    } else {
        comparison(sign)
    }
}

/// The comparison with this sign.
fn comparison(sign: &str) -> Option<Op> {
    if sign == "<" {
        Some(Op::Lt)
    } else if sign == "<=" {
        Some(Op::Le)
    } else if sign == ">" {
        Some(Op::Gt)
    } else if sign == ">=" {
        Some(Op::Ge)
    } else if sign == "==" {
        Some(Op::Eq)
    } else if sign == "!=" {
        Some(Op::Ne)
    } else {
        None
    }
}
