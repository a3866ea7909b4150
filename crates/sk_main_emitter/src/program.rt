ghost use Rattle.std.specs.Prelude.{◌≡◌, ◌++◌, ◌∷◌, [], length, map, replicate, false, None, IfOk};
ghost use Rattle.sk_base.specs.declared.number.Ty.TheVariants.{Int};
ghost use Rattle.sk_main_emitter.specs.Written.{IsMain, code_of_main, signature_of_main};
ghost use Rattle.sk_main_scheme.specs.MainScheme as scheme;
ghost use Rattle.sk_main_scheme.specs.Objects.{unmarked_of, object_of};
ghost use Rattle.sk_scheme.specs.Plans as plans;
ghost use Rattle.sk_scheme.specs.Scheme.{codes_of, known_functions, signatures_of};
ghost use Rattle.sk_typing.specs.Typing.{inputs_of};
ghost use Rattle.sk_tree.specs.declared.tree.ParamKind.TheVariants.{Scalar};

use crate::inputs::taken_inputs;
use crate::names::InMain;
use crate::statements::all;
use crate::writer::Writer;
use sk_base::Ty;
use sk_emitter::{
    Functions, InScope, address, body, compile_all, function_names, no_marks, plan, put,
};
use sk_isa::{Code, Instr, Object, Plan, Signature};
use sk_names::Name;
use sk_tree::{Declared, Function, Instance, Operator, ParamKind, Program, Statement};
use sqlite_items::Items;
use std::alloc::{AllocError, Global};

/// Main as it is written, with the most values on its stack.
#[derive(Drop)]
struct Written<'a> {
    writer: Writer<'a>,
    depth: usize,
}

/// What main has beside its code, its slots and the most values on its stack among it.
#[derive(Drop)]
struct Held {
    signature: Signature,
    plans: Items<Plan>,
    slots: u32,
    depth: u32,
}

/// What main is compiled to.
#[derive(Drop)]
struct Main {
    code: Code,
    signature: Signature,
    containers: Items<Declared>,
    plans: Items<Plan>,
}

/// What the functions and main are compiled to. The last signature is main's.
#[derive(Drop)]
struct Whole {
    functions: Items<Code>,
    signatures: Items<Signature>,
    main: Code,
    containers: Items<Declared>,
    plans: Items<Plan>,
}

/// What an object has beside what is compiled.
#[derive(Drop)]
struct Beside {
    safe: Items<bool>,
    operators: Items<Option<Operator>>,
    inputs: Items<Declared>,
    names: Items<Name>,
}

/// The instances of main as they are declared, each of which is run sequentially alone.
fn plans_of(
    alloc: Global,
    functions: &InScope<'_>,
    instances: &[&Instance],
) -> Result<Items<Plan>, AllocError>
    ensures { IfOk result (λ found. found ≡ map (λ instance. plans.plan_of functions.now.functions instance.now) instances.now) }
{
    let mut plans = Items::new(alloc);
    for instance in instances {
        plans.push(plan(alloc, functions, instance)?)?;
    }
    Ok(plans)
}

/// The kinds of slots that are scalars of these types.
fn scalars(alloc: Global, types: &[Ty]) -> Result<Items<ParamKind>, AllocError>
    ensures { IfOk result (λ kinds. kinds ≡ map Scalar types.now) }
{
    let mut kinds = Items::new(alloc);
    for ty in types {
        kinds.push(ParamKind::Scalar(*ty))?;
    }
    Ok(kinds)
}

/// Writes main behind the functions before it; it ends with a halt.
fn write_main<'a>(
    alloc: Global,
    functions: InScope<'a>,
    body: &'a [Statement],
) -> Result<Written<'a>, AllocError>
    ensures { IfOk result (λ written. IsMain functions.entry.functions body.now written.writer written.depth) }
{
    let names = InMain::new(alloc, functions);
    let mut writer = Writer {
        names,
        code: Vec::new(alloc),
        slots: Vec::new(alloc),
        containers: Items::new(alloc),
        instances: Vec::new(alloc),
    };
    let depth = all(alloc, &mut writer, body)?;
    put(&mut writer.code, Instr::Halt)?;
    Ok(Written { writer, depth })
}

/// The signature of main, which takes nothing and gives an int, with slots of these types.
fn signature(alloc: Global, slots: &[Ty]) -> Result<Signature, AllocError>
    ensures { IfOk result (λ signature. signature ≡ record { ret = Int; params = []; slots = map Scalar slots.now }) }
{
    let slots = scalars(alloc, slots)?;
    let params = Items::new(alloc);
    Ok(Signature {
        ret: Ty::Int,
        params,
        slots,
    })
}

/// What main has beside its code once it is written.
fn held_of(alloc: Global, written: &Written<'_>) -> Result<Held, AllocError>
    ensures signature { IfOk result (λ held. held.signature
        ≡ record { ret = Int; params = []; slots = map Scalar written.now.writer.slots.items }) }
    ensures plans { IfOk result (λ held. held.plans
        ≡ map (λ instance. plans.plan_of written.now.writer.names.functions instance.now) written.now.writer.instances.items) }
    ensures slots { IfOk result (λ held. held.slots ≡ length written.now.writer.slots.items) }
    ensures depth { IfOk result (λ held. held.depth ≡ written.now.depth) }
{
    let writer = &written.writer;
    let slots = address(writer.slots.len())?;
    let depth = address(written.depth)?;
    let signature = signature(alloc, writer.slots.as_slice())?;
    let plans = plans_of(alloc, writer.names.functions(), writer.instances.as_slice())?;
    Ok(Held {
        signature,
        plans,
        slots,
        depth,
    })
}

/// Main as it is written, with what it has beside its code.
fn finished(written: Written<'_>, held: Held) -> Main
    ensures code { result.code ≡ record { instrs = written.entry.writer.code.items; slots = held.slots; depth = held.depth } }
    ensures signature { result.signature ≡ held.signature }
    ensures containers { result.containers ≡ written.entry.writer.containers }
    ensures plans { result.plans ≡ held.plans }
{
    let Writer {
        code,
        containers,
        ..
    } = written.writer;
    let Held {
        signature,
        plans,
        slots,
        depth,
    } = held;
    let instrs = Items::from_vec(code);
    Main {
        code: Code {
            instrs,
            slots,
            depth,
        },
        signature,
        containers,
        plans,
    }
}

/// Compiles main behind the functions before it.
fn compile_main<'a>(
    alloc: Global,
    functions: InScope<'a>,
    body: &'a [Statement],
) -> Result<Main, AllocError>
    ensures code { IfOk result (λ main. main.code ≡ code_of_main (scheme.main_emitted functions.entry.functions body.now)) }
    ensures signature { IfOk result (λ main. main.signature ≡ signature_of_main (scheme.main_emitted functions.entry.functions body.now)) }
    ensures containers { IfOk result (λ main. main.containers ≡ (scheme.main_emitted functions.entry.functions body.now).behind.containers) }
    ensures plans { IfOk result (λ main. main.plans ≡ map (plans.plan_of functions.entry.functions) (scheme.main_emitted functions.entry.functions body.now).behind.instances) }
{
    let written = write_main(alloc, functions, body)?;
    let held = held_of(alloc, &written)?;
    Ok(finished(written, held))
}

/// What functions and main are compiled to, once main is.
fn with_main(
    functions: Items<Code>,
    signatures: Items<Signature>,
    main: Main,
) -> Result<Whole, AllocError>
    ensures functions { IfOk result (λ whole. whole.functions ≡ functions) }
    ensures signatures { IfOk result (λ whole. whole.signatures ≡ signatures ++ main.signature ∷ []) }
    ensures main { IfOk result (λ whole. whole.main ≡ main.code) }
    ensures containers { IfOk result (λ whole. whole.containers ≡ main.containers) }
    ensures plans { IfOk result (λ whole. whole.plans ≡ main.plans) }
{
    let Main {
        code,
        signature,
        containers,
        plans,
    } = main;
    let mut signatures = signatures;
    signatures.push(signature)?;
    Ok(Whole {
        functions,
        signatures,
        main: code,
        containers,
        plans,
    })
}

/// Compiles functions in text order, and main behind them.
fn compile_whole<'a>(
    alloc: Global,
    functions: &'a [Function],
    body: &'a [Statement],
) -> Result<Whole, AllocError>
    ensures functions { IfOk result (λ whole. whole.functions ≡ codes_of functions.now) }
    ensures signatures { IfOk result (λ whole. whole.signatures
        ≡ signatures_of functions.now ++ signature_of_main (scheme.main_emitted (known_functions functions.now) body.now) ∷ []) }
    ensures main { IfOk result (λ whole. whole.main ≡ code_of_main (scheme.main_emitted (known_functions functions.now) body.now)) }
    ensures containers { IfOk result (λ whole. whole.containers ≡ (scheme.main_emitted (known_functions functions.now) body.now).behind.containers) }
    ensures plans { IfOk result (λ whole. whole.plans
        ≡ map (plans.plan_of (known_functions functions.now)) (scheme.main_emitted (known_functions functions.now) body.now).behind.instances) }
{
    let Functions {
        names,
        codes,
        signatures,
    } = compile_all(alloc, functions)?;
    let main = compile_main(alloc, names, body)?;
    let whole = with_main(codes, signatures, main)?;
    Ok(whole)
}

/// What the object of a program has beside what is compiled: no function is marked, or known to be an operator.
fn beside_of(alloc: Global, program: &Program, functions: &[Function]) -> Result<Beside, AllocError>
    ensures safe { IfOk result (λ beside. beside.safe ≡ replicate (length functions.now) false) }
    ensures operators { IfOk result (λ beside. beside.operators ≡ replicate (length functions.now) None) }
    ensures inputs { IfOk result (λ beside. beside.inputs ≡ inputs_of program.now) }
    ensures names { IfOk result (λ beside. beside.names ≡ map (λ function. function.name) functions.now) }
{
    let inputs = taken_inputs(alloc, program)?;
    let names = function_names(alloc, functions)?;
    let (safe, operators) = no_marks(alloc, functions.len())?;
    Ok(Beside {
        safe,
        operators,
        inputs,
        names,
    })
}

/// The object of what is compiled and what it has beside.
fn joined(whole: Whole, beside: Beside) -> Object
    ensures { result ≡ record {
      functions = whole.functions;
      signatures = whole.signatures;
      safe = beside.safe;
      operators = beside.operators;
      instances = whole.plans;
      main = whole.main;
      inputs = beside.inputs;
      containers = whole.containers;
      names = beside.names;
    } }
{
    Object {
        functions: whole.functions,
        signatures: whole.signatures,
        safe: beside.safe,
        operators: beside.operators,
        instances: whole.plans,
        main: whole.main,
        inputs: beside.inputs,
        containers: whole.containers,
        names: beside.names,
    }
}

/// The functions before main, which is the last one.
fn before_main(program: &Program) -> &[Function]
    ensures { result.now ≡ plans.functions_before_main program.now }
{
    let functions = program.functions.as_slice();
    let count = functions.len().saturating_sub(1);
    &functions[..count]
}

/// The compiled form of a program, main included: no function is marked, and each plan offers to be run sequentially alone.
/// It is taken of every program: where a name is not in scope, or is no value, nothing is compiled. A name is found in
/// constant time, so the cost is that of the program's length.
///
/// # Errors
///
/// Want of memory, which is also the answer where a code has 2^32 instructions, slots or values on its stack, or where there
/// are 2^32 containers or instances, or a declaration's number of elements is 2^32, or more.
pub fn compile(alloc: Global, program: &Program) -> Result<Object, AllocError>
    ensures { IfOk result (λ object. object ≡ unmarked_of (object_of program.now)) }
{
    let functions = before_main(program);
    let statements = body(program.functions.as_slice(), functions.len());
    let whole = compile_whole(alloc, functions, statements)?;
    let beside = beside_of(alloc, program, functions)?;
    Ok(joined(whole, beside))
}
