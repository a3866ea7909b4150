ghost use Rattle.std.specs.Prelude.{◌≡◌, ◌<◌, ◌^◌, [], length, Some, IfOk, IfErr};
ghost use Rattle.sk_reader.specs.ParsesAs.{ParsesAs};
ghost use Rattle.sk_reader.specs.Tells.{Tells};
ghost use Rattle.sk_reading.specs.Reading.{value_of};
ghost use Rattle.sk_reading.specs.ReadingPrograms as spec;

use crate::cursor::Cursor;
use crate::fault::ParseFault;
use crate::function::function;
use crate::next::is_type;
use crate::stop::Stop;
use sk_refusals::Limited;
use sk_tokens::Token;
use sk_tree::Function;
use sqlite_items::Items;
use std::alloc::Global;

/// The most functions that a program has.
const MOST_FUNCTIONS: usize = 1024;

/// Counts a function at the next token, which has to be the first of one, behind so many others. Nothing is taken.
#[tactic(auto, unfolding(sk_reading::specs::ReadingPrograms::count_function, sk_reading::specs::ReadingPrograms::one_more))]
fn count_function(cursor: &Cursor<'_>, found: usize) -> Result<(), Stop>
    ensures { ParsesAs (spec.count_function found cursor.now) result cursor.now }
{
    if !is_type(cursor.peek()) {
        return Err(cursor.refuse());
    }
    if found >= MOST_FUNCTIONS {
        return Err(cursor.many(Limited::Functions));
    }
    Ok(())
}

/// `program = { function }`
fn program(alloc: Global, cursor: &mut Cursor<'_>) -> Result<Items<Function>, Stop>
    ensures { ParsesAs (spec.functions_from (length cursor.old.rest) [] cursor.old) result cursor.new }
{
    let mut found = Items::new(alloc);
    for _turn in 0..cursor.left() {
        if cursor.is_at_end() {
            return Ok(found);
        }
        count_function(cursor, found.len())?;
        found.push(function(alloc, cursor)?)?;
    }
    if !cursor.is_at_end() {
        return Err(cursor.refuse());
    }
    Ok(found)
}

/// The functions that the tokens are, up to their end. Takes time and memory in proportion to the tokens; parts inside
/// parts take stack, and no more of them are open at once than the limit.
#[tactic(auto, unfolding(sk_reading::specs::ReadingPrograms::functions))]
pub fn functions(alloc: Global, tokens: &[Token]) -> Result<Items<Function>, ParseFault>
    requires { length tokens.now < 2 ^ 31 }
    ensures found { IfOk result (λ all. value_of (spec.functions tokens.now) ≡ Some all) }
    ensures told { IfErr result (Tells (spec.RefusesAt tokens.now)) }
{
    let mut cursor = Cursor::new(tokens);
    match program(alloc, &mut cursor) {
        Ok(found) => Ok(found),
        Err(Stop::Memory) => Err(ParseFault::Memory),
        Err(Stop::Refused { refusal, left }) => {
            let token = tokens.len().saturating_sub(left);
            Err(ParseFault::new(refusal, token as u32))
        }
    }
}
