//! From a source text to its tokens.
//!
//! - `fault`: why a text has no tokens.
//! - `bytes`: letters, digits and blanks.
//! - `piece`: what stands at the front of a rest of the text.
//! - `blank`, `word`, `number`, `string`, `sign`: the kinds of pieces.
//! - `place`: how far the text is read.
//! - `lexer`: the tokens of a text.
//!
//! The text is cut into pieces from its front on, each in time in proportion to its bytes.
#![tactic(auto)]

mod blank;
mod bytes;
mod fault;
mod lexer;
mod number;
mod piece;
mod place;
mod sign;
mod string;
mod word;

pub use fault::LexFault;
pub use lexer::tokens;
