//! Tokens, which a source text is cut into.
//!
//! - `token`: signs, and tokens with their lines.
//!
//! What bytes spell, and which tokens a text has, are definitions of `specs/`.
#![tactic(auto)]

mod token;

pub use token::{Sign, Token, TokenKind};
