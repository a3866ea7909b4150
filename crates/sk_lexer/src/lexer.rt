ghost use Rattle.std.specs.Prelude.{◌≡◌, ◌+◌, ◌^◌, ◌<◌, ◌++◌, ℕ, List, length, IfOk, IfErr};
ghost use Rattle.sk_tokens.specs.Tokens.{tokens_of};
ghost use Rattle.sk_lexer.specs.Faults.{Tells};

use crate::LexFault;
use crate::piece::{Piece, next_piece};
use crate::place::Place;
use sk_tokens::Token;
use std::alloc::Global;

/// The tokens of a source text with their lines, or the least fault. Takes time and memory in proportion to the text.
pub fn tokens(alloc: Global, text: &[u8]) -> Result<Vec<Token>, LexFault>
    requires { length text.now < 2 ^ 31 }
    ensures all { IfOk result (λ tokens. tokens_of text.now ≡ Ok tokens.items) }
    ensures fault { IfErr result (λ fault. Tells fault (tokens_of text.now)) }
{
    let mut tokens = Vec::new(alloc);
    let mut place = Place::START;
    while place.at < text.len() {
        let rest = &text[place.at..];
        let piece = next_piece(alloc, rest, place.begins_line)?;
        match piece {
            Piece::Passed(bytes) => place = place.past(&rest[..bytes]),
            Piece::Found(bytes, what) => {
                let token = Token {
                    what,
                    line: place.line,
                };
                tokens.push(token)?;
                place = place.past(&rest[..bytes]);
            }
            Piece::Faulty(flaw) => return Err(flaw.at(place.at as u32)),
        }
    }
    Ok(tokens)
}
