ghost use Rattle.std.specs.Prelude.{◌≡◌, true, IfOk};
ghost use Rattle.sk_grammar.specs.Limits.{IsFromTextWithin};
ghost use Rattle.sk_main_scheme.specs.Objects.{StandsFor, unmarked_of, object_of};
ghost use Rattle.sk_plain.specs.Codes.{HasFunctionsOf};
ghost use Rattle.sk_typing.specs.Typing.{IsTyped};
ghost use Rattle.sk_vector_form.specs.VectorForm.{has_vector_form};
ghost use Rattle.sk_vector_laws.specs.Vectors.{IsRunnable};

use sk_isa::Object;
use sk_tree::Program;
use std::alloc::{AllocError, Global};

/// The compiled form of a program, main included, in which no function is marked and each plan offers to be run sequentially
/// alone: it stands for the program. It is taken of every program: where a name is not in scope, or is no value, nothing
/// is compiled. A name is found in constant time, so the cost is that of the program's length.
///
/// # Errors
///
/// Want of memory, which is also the answer where a code has 2^32 instructions, slots or values on its stack, or where there
/// are 2^32 containers or instances, or a declaration's number of elements is 2^32, or more.
pub fn compile(alloc: Global, program: &Program) -> Result<Object, AllocError>
    ensures object { IfOk result (λ object. object ≡ unmarked_of (object_of program.now)) }
    ensures stands { IfOk result (λ object. StandsFor object program.now) }
    // The functions of a program that a text has, and that keeps the rules of names and types, are sound and mean their sources,
    // whatever parameters they take.
    ensures functions { IsTyped program.now → IsFromTextWithin program.now → IfOk result (HasFunctionsOf program.now) }
    // A program of vectors that a text has, and that keeps the rules of names and types, is run by its compiled form.
    ensures runs { IsTyped program.now → IsFromTextWithin program.now → has_vector_form program.now ≡ true
        → IfOk result (λ object. IsRunnable object program.now) }
{
    let object = sk_main_emitter::compile(alloc, program)?;
    Ok(object)
}
