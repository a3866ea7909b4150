ghost use Rattle.std.specs.Prelude.{◌≢◌, ◌<◌, ◌^◌, length, IfOk, IfErr};
ghost use Rattle.sk_grammar.specs.Limits.{ReadsWithin};
ghost use Rattle.sk_reader.specs.Tells.{Tells};
ghost use Rattle.sk_refusals.specs.Refusals.{IsRefusal};
ghost use Rattle.sk_tree.specs.declared.tree.Program.{Program};

use sk_reader::{ParseFault, functions};
use sk_tokens::Token;
use sk_tree::Program;
use std::alloc::Global;

/// The program that the tokens spell. Takes time and memory in proportion to the tokens; parts inside parts take stack,
/// and no more of them are open at once than the limit.
#[tactic(auto, using(sk_reading_sound_laws::proofs::Programs::program_sound, sk_reading_complete_laws::proofs::Programs::not_refused))]
pub fn parse(alloc: Global, tokens: &[Token]) -> Result<Program, ParseFault>
    requires { length tokens.now < 2 ^ 31 }
    ensures found { IfOk result (λ program. ReadsWithin tokens.now program) }
    ensures refused { IfErr result (λ fault. fault ≢ ParseFault.Memory → (program : Program) → ReadsWithin tokens.now program → ⊥) }
    ensures told { IfErr result (Tells (IsRefusal tokens.now)) }
{
    let functions = functions(alloc, tokens)?;
    Ok(Program { functions })
}
