ghost use Rattle.std.specs.Prelude.{◌≡◌, ◌++◌, OnOk, IfOk, map, codes, IsTrue, ◌↔◌};
ghost use Rattle.std.specs.List.{flat_map};
ghost use Rattle.sk_names.specs.Words.{type_word};
ghost use Rattle.sk_words.specs.Escapes.{quoted};
ghost use Rattle.sk_printed.specs.ExpressionText.{shown_of, text_of, applied_text};
ghost use Rattle.sk_printed.specs.StatementText.{end_text, line_text, block_text, else_text, shown_what, shown_statement, container_type_text};

use crate::expressions::{put, put_applied};
use crate::parts::{put_container_type, put_instance, put_items, put_setting};
use sk_base::Ty;
use sk_tree::{Expr, Statement, What};
use sk_words::{put_quoted, type_name};
use std::alloc::{AllocError, Global};

/// The blanks before the lines of a block, two more than before its own line.
fn deeper(alloc: Global, indent: &[u8]) -> Result<Vec<u8>, AllocError>
    ensures { IfOk result (λ inner. inner.items ≡ indent.now ++ codes "  ") }
{
    let mut inner = Vec::from_slice(alloc, indent)?;
    inner.extend_from_slice(b"  ")?;
    Ok(inner)
}

/// What a statement ends with.
fn end(what: &What) -> &'static [u8]
    ensures { result.now ≡ end_text (shown_what what.now).form }
{
    match what {
        What::If(_, _, _) | What::For(_, _, _, _) => b"",
        _ => b";",
    }
}

/// Appends the declaration of a scalar with its value.
fn put_declaration(out: &mut Vec<u8>, ty: Ty, name: &[u8], value: &Expr) -> Result<(), AllocError>
    ensures { OnOk result (out.new.items ≡ out.old.items ++ (type_word ty ++ codes " " ++ name.now ++ codes " = " ++ text_of value.now)) }
{
    out.extend_from_slice(type_name(ty))?;
    out.extend_from_slice(b" ")?;
    out.extend_from_slice(name)?;
    out.extend_from_slice(b" = ")?;
    put(out, value)
}

/// Appends the assignment of a scalar.
fn put_assignment(out: &mut Vec<u8>, name: &[u8], value: &Expr) -> Result<(), AllocError>
    ensures { OnOk result (out.new.items ≡ out.old.items ++ (name.now ++ codes " = " ++ text_of value.now)) }
{
    out.extend_from_slice(name)?;
    out.extend_from_slice(b" = ")?;
    put(out, value)
}

/// Appends the assignment of one element of a container.
fn put_poke(out: &mut Vec<u8>, name: &[u8], places: &[Expr], value: &Expr) -> Result<(), AllocError>
    ensures { OnOk result (out.new.items ≡ out.old.items ++ (applied_text name.now (map shown_of places.now) ++ codes " = " ++ text_of value.now)) }
{
    put_applied(out, name, places)?;
    out.extend_from_slice(b" = ")?;
    put(out, value)
}

/// Appends the declaration of a container that is an input.
fn put_taking(
    out: &mut Vec<u8>,
    sizes: u8,
    ty: Ty,
    name: &[u8],
    input: &[u8],
) -> Result<(), AllocError>
    ensures { OnOk result (out.new.items ≡ out.old.items ++ (container_type_text sizes (type_word ty) ++ name.now ++ codes " = skepu_input(" ++ quoted input.now ++ codes ")")) }
{
    put_container_type(out, sizes, ty)?;
    out.extend_from_slice(name)?;
    out.extend_from_slice(b" = skepu_input(")?;
    put_quoted(out, input)?;
    out.extend_from_slice(b")")
}

/// Appends a statement without its `;`, whose line begins with these blanks.
#[cycle(statement)]
fn put_what(alloc: Global, out: &mut Vec<u8>, indent: &[u8], what: &What) -> Result<(), AllocError>
    ensures { OnOk result (out.new.items ≡ out.old.items ++ (shown_what what.now).text indent.now) }
{
    match what {
        What::Declare(ty, name, value) => put_declaration(out, *ty, name.as_bytes(), value),
        What::Assign(name, value) => put_assignment(out, name.as_bytes(), value),
        What::Poke(name, places, value) => {
            put_poke(out, name.as_bytes(), places.as_slice(), value)
        }
        What::Make(sizes, ty, name, arguments) => {
            put_container_type(out, *sizes, *ty)?;
            put_applied(out, name.as_bytes(), arguments.as_slice())
        }
        What::Take(sizes, ty, name, input) => {
            put_taking(out, *sizes, *ty, name.as_bytes(), input.as_bytes())
        }
        What::Instance(instance) => put_instance(out, instance),
        What::Set(name, setting) => {
            out.extend_from_slice(name.as_bytes())?;
            out.extend_from_slice(b".")?;
            put_setting(out, setting)
        }
        What::Call(name, arguments) => put_applied(out, name.as_bytes(), arguments.as_slice()),
        What::Print(items) => {
            out.extend_from_slice(b"std::cout")?;
            put_items(out, items.as_slice())
        }
        What::If(test, one, other) => {
            out.extend_from_slice(b"if (")?;
            put(out, test)?;
            out.extend_from_slice(b") ")?;
            put_block(alloc, out, indent, one.as_slice())?;
            put_else(alloc, out, indent, other.as_slice())
        }
        What::For(first, test, step, body) => {
            out.extend_from_slice(b"for (")?;
            put_what(alloc, out, indent, &first.get().what)?;
            out.extend_from_slice(b"; ")?;
            put(out, test)?;
            out.extend_from_slice(b"; ")?;
            put_what(alloc, out, indent, &step.get().what)?;
            out.extend_from_slice(b") ")?;
            put_block(alloc, out, indent, body.as_slice())
        }
        What::Return(value) => {
            out.extend_from_slice(b"return ")?;
            put(out, value)
        }
    }
}

/// Appends a statement on lines of its own.
#[cycle(statement)]
fn put_line(
    alloc: Global,
    out: &mut Vec<u8>,
    indent: &[u8],
    statement: &Statement,
) -> Result<(), AllocError>
    ensures { OnOk result (out.new.items ≡ out.old.items ++ line_text indent.now (shown_statement statement.now)) }
{
    out.extend_from_slice(indent)?;
    put_what(alloc, out, indent, &statement.what)?;
    out.extend_from_slice(end(&statement.what))?;
    out.extend_from_slice(b"\n")
}

/// Appends statements, each on lines of its own.
#[cycle(statement)]
fn put_lines(
    alloc: Global,
    out: &mut Vec<u8>,
    indent: &[u8],
    statements: &[Statement],
) -> Result<(), AllocError>
    ensures { OnOk result (out.new.items ≡ out.old.items ++ flat_map (line_text indent.now) (map shown_statement statements.now)) }
{
    for statement in statements {
        put_line(alloc, out, indent, statement)?;
    }
    Ok(())
}

/// Appends a block that begins on a line with these blanks before.
#[cycle(statement)]
pub fn put_block(
    alloc: Global,
    out: &mut Vec<u8>,
    indent: &[u8],
    statements: &[Statement],
) -> Result<(), AllocError>
    ensures { OnOk result (out.new.items ≡ out.old.items ++ block_text indent.now (map shown_statement statements.now)) }
{
    let inner = deeper(alloc, indent)?;
    out.extend_from_slice(b"{\n")?;
    put_lines(alloc, out, inner.as_slice(), statements)?;
    out.extend_from_slice(indent)?;
    out.extend_from_slice(b"}")
}

/// Appends what stands behind the block of an `if`: nothing, a lone `if`, or a block.
#[cycle(statement)]
fn put_else(
    alloc: Global,
    out: &mut Vec<u8>,
    indent: &[u8],
    other: &[Statement],
) -> Result<(), AllocError>
    ensures { OnOk result (out.new.items ≡ out.old.items ++ else_text indent.now (map shown_statement other.now)) }
{
    match other {
        [] => Ok(()),
        [only] => {
            out.extend_from_slice(b" else ")?;
            if matches!(&only.what, What::If(_, _, _)) {
                put_what(alloc, out, indent, &only.what)
            } else {
                put_block(alloc, out, indent, other)
            }
        }
        _ => {
            out.extend_from_slice(b" else ")?;
            put_block(alloc, out, indent, other)
        }
    }
}
