ghost use Rattle.std.specs.Prelude.{◌≡◌, ◌++◌, OnOk, codes, map};
ghost use Rattle.sk_printed.specs.WordText.{prefix_text};
ghost use Rattle.sk_words.specs.Strung.{separated};
ghost use Rattle.sk_printed.specs.ExpressionText.{shown_of, placed, text_of, texts_in, applied_text, gap};

use crate::words::{operator, prefix, put_number};
use sk_grammar::Infix;
use sk_tree::{Expr, Un};
use sk_words::type_name;
use std::alloc::AllocError;

/// The level of an expression, from 0, the loosest, to 12.
fn level(expr: &Expr) -> u8
    ensures { result ≡ (shown_of expr.now).level }
{
    match expr {
        Expr::Choose(_, _, _) => 0,
        Expr::Either(_, _) => 1,
        Expr::Both(_, _) => 2,
        Expr::Binary(op, _, _) => Infix::Computes(*op).level(),
        Expr::Unary(_, _) | Expr::Cast(_, _) => 11,
        Expr::Number(_, _)
        | Expr::Name(_)
        | Expr::Field(_, _)
        | Expr::Method(_, _)
        | Expr::Apply(_, _) => 12,
    }
}

/// Whether it is the prefix `-` with its operand.
fn is_minus(expr: &Expr) -> bool
    ensures { result ≡ (shown_of expr.now).is_minus }
{
    match expr {
        Expr::Unary(Un::Neg, _) => true,
        _ => false,
    }
}

/// Appends an operator between blanks.
fn put_spaced(out: &mut Vec<u8>, operator: &[u8]) -> Result<(), AllocError>
    ensures { OnOk result (out.new.items ≡ out.old.items ++ (codes " " ++ operator.now ++ codes " ")) }
{
    out.extend_from_slice(b" ")?;
    out.extend_from_slice(operator)?;
    out.extend_from_slice(b" ")
}

/// Appends an expression.
#[cycle(expression)]
pub fn put(out: &mut Vec<u8>, expr: &Expr) -> Result<(), AllocError>
    ensures { OnOk result (out.new.items ≡ out.old.items ++ text_of expr.now) }
{
    match expr {
        Expr::Number(ty, value) => put_number(out, *ty, *value),
        Expr::Name(name) => out.extend_from_slice(name.as_bytes()),
        Expr::Field(name, field) => {
            out.extend_from_slice(name.as_bytes())?;
            out.extend_from_slice(b".")?;
            out.extend_from_slice(field.as_bytes())
        }
        Expr::Method(name, method) => {
            out.extend_from_slice(name.as_bytes())?;
            out.extend_from_slice(b".")?;
            out.extend_from_slice(method.as_bytes())?;
            out.extend_from_slice(b"()")
        }
        Expr::Unary(op, part) => put_prefixed(out, *op, part.get()),
        Expr::Cast(ty, part) => {
            out.extend_from_slice(b"(")?;
            out.extend_from_slice(type_name(*ty))?;
            out.extend_from_slice(b")")?;
            put_placed(out, 11, part.get())
        }
        Expr::Binary(op, left, right) => {
            let level = Infix::Computes(*op).level();
            put_placed(out, level, left.get())?;
            put_spaced(out, operator(*op))?;
            put_placed(out, level + 1, right.get())
        }
        Expr::Both(left, right) => {
            put_placed(out, 2, left.get())?;
            put_spaced(out, b"&&")?;
            put_placed(out, 3, right.get())
        }
        Expr::Either(left, right) => {
            put_placed(out, 1, left.get())?;
            put_spaced(out, b"||")?;
            put_placed(out, 2, right.get())
        }
        Expr::Choose(test, one, other) => {
            put_placed(out, 1, test.get())?;
            out.extend_from_slice(b" ? ")?;
            put(out, one.get())?;
            out.extend_from_slice(b" : ")?;
            put(out, other.get())
        }
        Expr::Apply(name, arguments) => put_applied(out, name.as_bytes(), arguments.as_slice()),
    }
}

/// Appends an expression in a place for expressions of this level: a looser one in parentheses.
#[cycle(expression)]
pub fn put_placed(out: &mut Vec<u8>, least: u8, expr: &Expr) -> Result<(), AllocError>
    ensures { OnOk result (out.new.items ≡ out.old.items ++ placed least (shown_of expr.now)) }
{
    if least <= level(expr) {
        return put(out, expr);
    }
    out.extend_from_slice(b"(")?;
    put(out, expr)?;
    out.extend_from_slice(b")")
}

/// Appends a prefix operator and its operand, with a blank between `-` and `-`.
#[cycle(expression)]
fn put_prefixed(out: &mut Vec<u8>, op: Un, part: &Expr) -> Result<(), AllocError>
    ensures { OnOk result (out.new.items ≡ out.old.items ++ (prefix_text op ++ gap op (shown_of part.now) ++ placed 11 (shown_of part.now))) }
{
    out.extend_from_slice(prefix(op))?;
    if op == Un::Neg && is_minus(part) {
        out.extend_from_slice(b" ")?;
    }
    put_placed(out, 11, part)
}

/// Appends a name with arguments, which are at least none.
#[cycle(expression)]
pub fn put_applied(out: &mut Vec<u8>, name: &[u8], arguments: &[Expr]) -> Result<(), AllocError>
    ensures { OnOk result (out.new.items ≡ out.old.items ++ applied_text name.now (map shown_of arguments.now)) }
{
    out.extend_from_slice(name)?;
    out.extend_from_slice(b"(")?;
    put_arguments(out, arguments)?;
    out.extend_from_slice(b")")
}

/// Appends arguments with commas and blanks between.
#[cycle(expression)]
fn put_arguments(out: &mut Vec<u8>, arguments: &[Expr]) -> Result<(), AllocError>
    ensures { OnOk result (out.new.items ≡ out.old.items ++ separated (texts_in (map shown_of arguments.now))) }
{
    let mut lead: &[u8] = b"";
    for argument in arguments {
        out.extend_from_slice(lead)?;
        put(out, argument)?;
        lead = b", ";
    }
    Ok(())
}
