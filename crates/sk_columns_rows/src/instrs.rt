//! Instructions as text.
use sk_base::{Op, Ty};
use sk_isa::Instr;
use sk_names::Name;
use std::alloc::Global;

/// The instructions of a text, with commas between.
pub fn instrs(alloc: Global, text: &str) -> Option<Vec<Instr>> {
    let mut instrs = Vec::new(alloc);
    for part in text.split(',') {
        instrs.push(instr(alloc, part.trim())?).ok()?;
    }
    Some(instrs)
}

/// An instruction, which is a word, or a word and an operand.
fn instr(alloc: Global, text: &str) -> Option<Instr> {
    let (word, operand) = text.split_once(' ').unwrap_or((text, ""));
    if word == "ret" {
        Some(Instr::Ret)
    } else if word == "not" {
        Some(Instr::Not)
    } else if word == "wrap" {
        Some(Instr::Wrap)
    } else if word == "push" {
        Some(Instr::Push(operand.parse().ok()?))
    } else if word == "field" {
        field(alloc, operand)
    } else {
        match numbered(word, operand) {
            Some(instr) => Some(instr),
            None => typed(word, operand),
        }
    }
}

/// A field of the argument in a slot.
fn field(alloc: Global, operands: &str) -> Option<Instr> {
    let (slot, name) = operands.split_once(' ')?;
    let name = Name::from_slice(alloc, name.as_bytes()).ok()?;
    Some(Instr::Field(slot.parse().ok()?, name))
}

/// An instruction with a slot or an address.
fn numbered(word: &str, operand: &str) -> Option<Instr> {
    let number = operand.parse().ok()?;
    if word == "load" {
        Some(Instr::Load(number))
    } else if word == "store" {
        Some(Instr::Store(number))
    } else if word == "jump" {
        Some(Instr::Jump(number))
    } else if word == "zero" {
        Some(Instr::Zero(number))
    } else {
        None
    }
}

/// An instruction with a type.
fn typed(word: &str, operand: &str) -> Option<Instr> {
    let ty = ty(operand)?;
    if word == "neg" {
        Some(Instr::Neg(ty))
    } else if word == "inv" {
        Some(Instr::Inv(ty))
    } else {
        Some(Instr::Binary(operator(word)?, ty))
    }
}

/// A type.
fn ty(word: &str) -> Option<Ty> {
    if word == "int" {
        Some(Ty::Int)
    } else if word == "long" {
        Some(Ty::Long)
    } else {
        None
    }
}

/// An operator.
fn operator(word: &str) -> Option<Op> {
    let operators = [
        ("add", Op::Add),
        ("sub", Op::Sub),
        ("mul", Op::Mul),
        ("div", Op::Div),
        ("rem", Op::Rem),
        ("shl", Op::Shl),
        ("shr", Op::Shr),
        ("and", Op::And),
        ("or", Op::Or),
        ("xor", Op::Xor),
        ("lt", Op::Lt),
        ("le", Op::Le),
        ("gt", Op::Gt),
        ("ge", Op::Ge),
        ("eq", Op::Eq),
        ("ne", Op::Ne),
    ];
    for (name, op) in operators {
        if name == word {
            return Some(op);
        }
    }
    None
}
