//! What the lexer answers for a text: each token as `w:` and a word, `int:` or `long:` and a number, `t:` and a string, or
//! the name of a sign; and behind it `@` and its line.
use sk_base::Ty;
use sk_lexer::tokens;
use sk_tables::{Answers, Row};
use sk_tokens::{Token, TokenKind};
use std::alloc::{AllocError, Global};
use std::fmt::Write;

/// No text of a row has so many bytes.
const MANY: usize = 1 << 30;

/// The answers of the lexer.
#[derive(Drop)]
pub struct Lexer;

impl Answers for Lexer {
    fn answer(&mut self, alloc: Global, question: &str, row: &Row) -> Result<String, AllocError> {
        let text = row.whole.as_slice();
        if text.len() >= MANY {
            return String::from_str(alloc, "too long");
        }
        match tokens(alloc, text) {
            Ok(tokens) => told(alloc, question, tokens.as_slice()),
            Err(fault) => format!(in alloc; "{fault}"),
        }
    }
}

/// What is told of tokens.
fn told(alloc: Global, question: &str, tokens: &[Token]) -> Result<String, AllocError> {
    if question == "count" {
        let count = tokens.len();
        format!(in alloc; "{count} tokens")
    } else {
        rendered(alloc, tokens)
    }
}

/// Tokens with blanks between.
fn rendered(alloc: Global, tokens: &[Token]) -> Result<String, AllocError> {
    let mut out = String::new(alloc);
    for token in tokens {
        if !out.is_empty() {
            out.push(' ')?;
        }
        push_token(&mut out, token)?;
    }
    Ok(out)
}

/// Adds a token with its line.
fn push_token(out: &mut String, token: &Token) -> Result<(), AllocError> {
    match &token.what {
        TokenKind::Word(name) => {
            out.push_str("w:")?;
            push_bytes(out, name.as_bytes())?;
        }
        TokenKind::Number(Ty::Int, value) => write!(out, "int:{value}")?,
        TokenKind::Number(Ty::Long, value) => write!(out, "long:{value}")?,
        TokenKind::Text(text) => {
            out.push_str("t:")?;
            push_bytes(out, text.as_bytes())?;
        }
        TokenKind::Sign(sign) => write!(out, "{sign:?}")?,
    }
    let line = token.line;
    write!(out, "@{line}")
}

/// Adds bytes as characters.
fn push_bytes(out: &mut String, bytes: &[u8]) -> Result<(), AllocError> {
    for byte in bytes {
        out.push(char::from(*byte))?;
    }
    Ok(())
}
