ghost use Rattle.std.specs.Prelude.{◌≡◌, ◌++◌, OnOk, IfOk, map};
ghost use Rattle.sk_words.specs.Strung.{separated};
ghost use Rattle.sk_printed.specs.ProgramText.{param_text, function_text, printed_of};

use crate::statements::put_block;
use crate::words::put_kind;
use sk_tree::{Function, Param, Program};
use sk_words::type_name;
use std::alloc::{AllocError, Global};

/// The text that a program is printed as: two spaces a level, one statement a line, an empty line between functions, and
/// no needless parentheses. Takes time and memory in proportion to the text.
pub fn printed(alloc: Global, program: &Program) -> Result<Vec<u8>, AllocError>
    ensures { IfOk result (λ text. text.items ≡ printed_of program.now) }
{
    let mut out = Vec::new(alloc);
    let mut lead: &[u8] = b"";
    for function in program.functions.as_slice() {
        out.extend_from_slice(lead)?;
        put_function(alloc, &mut out, function)?;
        lead = b"\n";
    }
    Ok(out)
}

/// Appends parameters with commas and blanks between.
fn put_params(out: &mut Vec<u8>, params: &[Param]) -> Result<(), AllocError>
    ensures { OnOk result (out.new.items ≡ out.old.items ++ separated (map param_text params.now)) }
{
    let mut lead: &[u8] = b"";
    for param in params {
        out.extend_from_slice(lead)?;
        put_kind(out, param.kind)?;
        out.extend_from_slice(b" ")?;
        out.extend_from_slice(param.name.as_bytes())?;
        lead = b", ";
    }
    Ok(())
}

/// Appends a function with a line feed behind it.
fn put_function(alloc: Global, out: &mut Vec<u8>, function: &Function) -> Result<(), AllocError>
    ensures { OnOk result (out.new.items ≡ out.old.items ++ function_text function.now) }
{
    out.extend_from_slice(type_name(function.ret))?;
    out.extend_from_slice(b" ")?;
    out.extend_from_slice(function.name.as_bytes())?;
    out.extend_from_slice(b"(")?;
    put_params(out, function.params.as_slice())?;
    out.extend_from_slice(b") ")?;
    put_block(alloc, out, b"", function.body.as_slice())?;
    out.extend_from_slice(b"\n")
}
