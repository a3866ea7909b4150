//! What a compiled form has beside code.
use sk_isa::{Code, Object, Plan, Signature};
use sk_tree::Declared;
use std::alloc::{AllocError, Global};
use std::fmt::Write;

/// Of each function before main the slots and the most values on its stack, the number of signatures, what is known never
/// to trap, the number of main's instructions, and the plans.
pub fn shown(alloc: Global, object: &Object) -> Result<String, AllocError> {
    let mut out = String::new(alloc);
    for code in object.functions.as_slice() {
        push_code(&mut out, code)?;
    }
    let signatures = object.signatures.len();
    let safe = object.safe.as_slice();
    let instrs = object.main.instrs.len();
    write!(out, "{signatures} signatures, safe {safe:?}, main {instrs}")?;
    for plan in object.instances.as_slice() {
        push_plan(&mut out, plan)?;
    }
    Ok(out)
}

/// Adds a function's slots and depth.
fn push_code(out: &mut String, code: &Code) -> Result<(), AllocError> {
    let Code { slots, depth, .. } = code;
    write!(out, "slots {slots} depth {depth}, ")
}

/// Of main the slots and the most values on its stack, and its signature; the plans, the inputs and the containers.
pub fn held(alloc: Global, object: &Object) -> Result<String, AllocError> {
    let mut out = String::new(alloc);
    let Code { slots, depth, .. } = &object.main;
    write!(out, "slots {slots} depth {depth}")?;
    if let Some(signature) = object.signatures.as_slice().last() {
        push_signature(&mut out, signature)?;
    }
    for plan in object.instances.as_slice() {
        push_plan(&mut out, plan)?;
    }
    for input in object.inputs.as_slice() {
        push_declared(&mut out, "input", input)?;
    }
    for container in object.containers.as_slice() {
        push_declared(&mut out, "container", container)?;
    }
    Ok(out)
}

/// Adds the type of main's value and the kinds of its slots.
fn push_signature(out: &mut String, signature: &Signature) -> Result<(), AllocError> {
    let ret = signature.ret;
    write!(out, ", signature {ret:?} of")?;
    for kind in signature.slots.as_slice() {
        write!(out, " {kind:?}")?;
    }
    Ok(())
}

/// Adds an input or a container.
fn push_declared(out: &mut String, what: &str, declared: &Declared) -> Result<(), AllocError> {
    write!(out, ", {what} ")?;
    for byte in declared.name.as_bytes() {
        out.push(char::from(*byte))?;
    }
    let Declared { kind, ty, .. } = declared;
    write!(out, " {kind} {ty:?}")
}

/// Adds a plan.
fn push_plan(out: &mut String, plan: &Plan) -> Result<(), AllocError> {
    out.push_str(", plan ")?;
    for byte in plan.name.as_bytes() {
        out.push(char::from(*byte))?;
    }
    let functions = plan.functions.as_slice();
    let elements = plan.elements;
    let variants = plan.variants.as_slice();
    write!(out, " of {functions:?}, {elements} elements, {variants:?}")
}
