ghost use Rattle.std.specs.Prelude.{◌≡◌, [], ◌∷◌, ◌++◌, IfOk, OnOk};
ghost use Rattle.sk_scheme.specs.Scheme as scheme;

use crate::names::{InScope, Place};
use crate::output::address;
use crate::statements::{Writer, all};
use crate::types::kinds;
use sk_isa::{Code, Signature};
use sk_tree::{Function, Param};
use sqlite_items::Items;
use std::alloc::{AllocError, Global};

/// A function's code and signature, with the names that are in scope behind it.
#[derive(Drop)]
struct Compiled<'a> {
    names: InScope<'a>,
    code: Code,
    signature: Signature,
}

/// What functions are compiled to, in text order, with the names that are in scope behind them.
#[derive(Drop)]
pub struct Functions<'a> {
    pub names: InScope<'a>,
    pub codes: Items<Code>,
    pub signatures: Items<Signature>,
}

/// The parameters are in scope from now on, each in the slot of its number.
fn declare_parameters<'a>(names: &mut InScope<'a>, params: &'a [Param]) -> Result<(), AllocError>
    ensures { OnOk result (names.new ≡ record { functions = names.old.functions; scope = scheme.parameters_from 0 params.now names.old.scope }) }
{
    for (i, param) in params.iter().enumerate() {
        let number = address(i)?;
        let kind = param.kind;
        names.declare(param.name.as_bytes(), Place { number, kind })?;
    }
    Ok(())
}

/// Compiles a function behind those in scope.
fn compile<'a>(
    alloc: Global,
    mut names: InScope<'a>,
    function: &'a Function,
) -> Result<Compiled<'a>, AllocError>
    requires { names.scope ≡ [] }
    ensures names { IfOk result (λ compiled. compiled.names ≡ record { functions = names.entry.functions; scope = [] }) }
    ensures code { IfOk result (λ compiled. compiled.code ≡ scheme.code_of names.entry.functions function.now) }
    ensures signature { IfOk result (λ compiled. compiled.signature ≡ scheme.signature_of names.entry.functions function.now) }
{
    let params = function.params.as_slice();
    declare_parameters(&mut names, params)?;
    let mut writer = Writer {
        names,
        ret: function.ret,
        code: Vec::new(alloc),
        slots: kinds(alloc, params)?,
    };
    let depth = all(alloc, &mut writer, function.body.as_slice())?;
    let Writer {
        mut names,
        ret,
        code,
        slots,
    } = writer;
    names.leave(0);
    Ok(Compiled {
        names,
        code: Code {
            instrs: Items::from_vec(code),
            slots: address(slots.len())?,
            depth: address(depth)?,
        },
        signature: Signature {
            ret,
            params: Items::from_vec(kinds(alloc, params)?),
            slots: Items::from_vec(slots),
        },
    })
}

/// Compiles one function more, which may be called from now on.
fn add<'a>(
    alloc: Global,
    functions: Functions<'a>,
    number: u32,
    function: &'a Function,
) -> Result<Functions<'a>, AllocError>
    requires { functions.names.scope ≡ [] }
    ensures names { IfOk result (λ made. made.names ≡ record { functions = (function.now.name, scheme.known_of number function.now) ∷ functions.entry.names.functions; scope = [] }) }
    ensures codes { IfOk result (λ made. made.codes ≡ functions.entry.codes ++ scheme.code_of functions.entry.names.functions function.now ∷ []) }
    ensures signatures { IfOk result (λ made. made.signatures ≡ functions.entry.signatures ++ scheme.signature_of functions.entry.names.functions function.now ∷ []) }
{
    let Functions {
        names,
        mut codes,
        mut signatures,
    } = functions;
    let Compiled {
        mut names,
        code,
        signature,
    } = compile(alloc, names, function)?;
    names.define(number, function)?;
    codes.push(code)?;
    signatures.push(signature)?;
    Ok(Functions {
        names,
        codes,
        signatures,
    })
}

/// Compiles functions in text order, each of which may call those before it.
pub fn compile_all<'a>(
    alloc: Global,
    functions: &'a [Function],
) -> Result<Functions<'a>, AllocError>
    ensures names { IfOk result (λ made. made.names ≡ record { functions = scheme.known_functions functions.now; scope = [] }) }
    ensures codes { IfOk result (λ made. made.codes ≡ scheme.codes_of functions.now) }
    ensures signatures { IfOk result (λ made. made.signatures ≡ scheme.signatures_of functions.now) }
{
    let mut made = Functions {
        names: InScope::new(alloc),
        codes: Items::new(alloc),
        signatures: Items::new(alloc),
    };
    for (i, function) in functions.iter().enumerate() {
        made = add(alloc, made, address(i)?, function)?;
    }
    Ok(made)
}
