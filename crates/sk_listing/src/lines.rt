ghost use Rattle.std.specs.Prelude.{◌≡◌, ◌++◌, ◌∷◌, [], codes, IfOk, OnOk};
ghost use Rattle.std.specs.Fmt.{decimal};
ghost use Rattle.sk_names.specs.Words.{type_word};
ghost use Rattle.sk_words.specs.Kinds.{kind_word};
ghost use Rattle.sk_words.specs.Escapes.{escaped_text};
ghost use Rattle.sk_words.specs.Strung.{spaced};
ghost use Rattle.sk_listing.specs.Listing.{operator_word, containers_text, words_of, lines_from, listing_of};

use sk_base::{Op, Ty};
use sk_isa::{Code, Instr};
use sk_words::{
    kind_name, put_decimal, put_decimals, put_escaped, put_quoted, put_signed, put_word, type_name,
};
use std::alloc::{AllocError, Global};

/// The lines of a code: each instruction with its address in front.
pub fn listing(alloc: Global, code: &Code) -> Result<Vec<u8>, AllocError>
    ensures { IfOk result (λ lines. lines.items ≡ listing_of code.now) }
{
    let mut lines = Vec::new(alloc);
    'each: for (at, instr) in code.instrs.as_slice().iter().enumerate() {
        put_decimal(&mut lines, at as u64)?;
        put_words(&mut lines, instr)?;
        lines.extend_from_slice(b"\n")?;
    }
    Ok(lines)
}

/// A number with a space in front.
fn put_operand(out: &mut Vec<u8>, number: u32) -> Result<(), AllocError>
    ensures { OnOk result (out.new.items ≡ out.old.items ++ codes " " ++ decimal number) }
{
    out.extend_from_slice(b" ")?;
    put_decimal(out, u64::from(number))
}

/// The word of an operator.
fn operator_name(op: Op) -> &'static [u8]
    ensures { result.now ≡ operator_word op }
{
    match op {
        Op::Add => b"add",
        Op::Sub => b"sub",
        Op::Mul => b"mul",
        Op::Div => b"div",
        Op::Rem => b"rem",
        Op::Shl => b"shl",
        Op::Shr => b"shr",
        Op::And => b"and",
        Op::Or => b"or",
        Op::Xor => b"xor",
        Op::Lt => b"lt",
        Op::Le => b"le",
        Op::Gt => b"gt",
        Op::Ge => b"ge",
        Op::Eq => b"eq",
        Op::Ne => b"ne",
    }
}

/// The numbers of containers with commas between, or `-`, with a space in front.
fn put_containers(out: &mut Vec<u8>, containers: &[u32]) -> Result<(), AllocError>
    ensures { OnOk result (out.new.items ≡ out.old.items ++ codes " " ++ containers_text containers.now) }
{
    if containers.is_empty() {
        put_word(out, b"-")
    } else {
        put_decimals(out, b",", b" ", containers)
    }
}

/// A word and a number.
fn put_one(out: &mut Vec<u8>, word: &[u8], number: u32) -> Result<(), AllocError>
    ensures { OnOk result (out.new.items ≡ out.old.items ++ spaced (word.now ∷ decimal number ∷ [])) }
{
    put_word(out, word)?;
    put_operand(out, number)
}

/// A word and two numbers.
fn put_two(out: &mut Vec<u8>, word: &[u8], first: u32, second: u32) -> Result<(), AllocError>
    ensures { OnOk result (out.new.items ≡ out.old.items ++ spaced (word.now ∷ decimal first ∷ decimal second ∷ [])) }
{
    put_one(out, word, first)?;
    put_operand(out, second)
}

/// A word, a number and a name.
fn put_named(out: &mut Vec<u8>, word: &[u8], number: u32, name: &[u8]) -> Result<(), AllocError>
    ensures { OnOk result (out.new.items ≡ out.old.items ++ spaced (word.now ∷ decimal number ∷ name.now ∷ [])) }
{
    put_one(out, word, number)?;
    put_word(out, name)
}

/// A word and a type.
fn put_typed(out: &mut Vec<u8>, word: &[u8], ty: Ty) -> Result<(), AllocError>
    ensures { OnOk result (out.new.items ≡ out.old.items ++ spaced (word.now ∷ type_word ty ∷ [])) }
{
    put_word(out, word)?;
    put_word(out, type_name(ty))
}

/// A word, and the number, the kind and the type of a container.
fn put_container(
    out: &mut Vec<u8>,
    word: &[u8],
    number: u32,
    kind: u8,
    ty: Ty,
) -> Result<(), AllocError>
    ensures { OnOk result (out.new.items ≡ out.old.items ++ spaced (word.now ∷ decimal number ∷ kind_word kind ∷ type_word ty ∷ [])) }
{
    put_one(out, word, number)?;
    put_typed(out, kind_name(kind), ty)
}

/// A call of an instance with containers and so many uniform arguments.
fn put_call(
    out: &mut Vec<u8>,
    word: &[u8],
    instance: u32,
    containers: &[u32],
    uniforms: u32,
) -> Result<(), AllocError>
    ensures { OnOk result (out.new.items ≡ out.old.items
        ++ spaced (word.now ∷ decimal instance ∷ containers_text containers.now ∷ decimal uniforms ∷ [])) }
{
    put_one(out, word, instance)?;
    put_containers(out, containers)?;
    put_operand(out, uniforms)
}

/// An input's name, with a space in front.
fn put_input(out: &mut Vec<u8>, name: &[u8]) -> Result<(), AllocError>
    ensures { OnOk result (out.new.items ≡ out.old.items ++ codes " " ++ escaped_text name.now) }
{
    out.extend_from_slice(b" ")?;
    put_escaped(out, name)
}

/// The words of an instruction, each with a space in front.
fn put_words(out: &mut Vec<u8>, instr: &Instr) -> Result<(), AllocError>
    ensures { OnOk result (out.new.items ≡ out.old.items ++ spaced (words_of instr.now)) }
{
    match instr {
        Instr::Push(number) => {
            out.extend_from_slice(b" push ")?;
            put_signed(out, *number)
        }
        Instr::Pop => put_word(out, b"pop"),
        Instr::Load(slot) => put_one(out, b"load", *slot),
        Instr::Store(slot) => put_one(out, b"store", *slot),
        Instr::Field(slot, name) => put_named(out, b"field", *slot, name.as_bytes()),
        Instr::Size(container, name) => put_named(out, b"size", *container, name.as_bytes()),
        Instr::Item(slot, places) => put_two(out, b"item", *slot, *places),
        Instr::Region(slot, places) => put_two(out, b"region", *slot, *places),
        Instr::Neg(ty) => put_typed(out, b"neg", *ty),
        Instr::Inv(ty) => put_typed(out, b"inv", *ty),
        Instr::Not => put_word(out, b"not"),
        Instr::Wrap => put_typed(out, b"wrap", Ty::Int),
        Instr::Binary(op, ty) => put_typed(out, operator_name(*op), *ty),
        Instr::Jump(to) => put_one(out, b"jump", *to),
        Instr::Zero(to) => put_one(out, b"zero", *to),
        Instr::Turn => put_word(out, b"turn"),
        Instr::Call(function) => put_one(out, b"call", *function),
        Instr::Ret => put_word(out, b"ret"),
        Instr::Count(line) => put_one(out, b"count", *line),
        Instr::Make(container, kind, ty, sizes) => {
            put_container(out, b"make", *container, *kind, *ty)?;
            put_operand(out, *sizes)
        }
        Instr::Take(container, kind, ty, name) => {
            put_container(out, b"take", *container, *kind, *ty)?;
            put_input(out, name.as_bytes())
        }
        Instr::Drop(container) => put_one(out, b"drop", *container),
        Instr::Set(instance, name, values) => {
            put_named(out, b"set", *instance, name.as_bytes())?;
            put_operand(out, *values)
        }
        Instr::Do(instance, containers, uniforms) => {
            put_call(out, b"do", *instance, containers.as_slice(), *uniforms)
        }
        Instr::Get(instance, containers, uniforms) => {
            put_call(out, b"get", *instance, containers.as_slice(), *uniforms)
        }
        Instr::Poke(container, places) => put_two(out, b"poke", *container, *places),
        Instr::Print => put_word(out, b"print"),
        Instr::Text(text) => {
            out.extend_from_slice(b" text ")?;
            put_quoted(out, text.as_bytes())
        }
        Instr::Endl => put_word(out, b"endl"),
        Instr::Halt => put_word(out, b"halt"),
    }
}
