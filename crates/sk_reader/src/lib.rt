//! From tokens to functions: the code, which reads what the definitions of `sk_reading` read.
//!
//! - `fault`: why a list of tokens is not read, and of which token that is told.
//! - `stop`: why reading stops, and how many tokens are left there.
//! - `keyword`, `same`: reserved words, and equality.
//! - `next`: what a token is, apart from what it holds.
//! - `cursor`: how far a list of tokens is read, and what has been counted.
//! - `expression`, `operators`: expressions.
//! - `words`: the words that name containers, skeletons, settings and modes.
//! - `target`, `plain`, `forms`: statements that hold no others.
//! - `statement`: all statements.
//! - `function`, `program`: functions, and all of a program.
//!
//! Above a function that reads stands the production of the grammar that it reads. It takes the tokens of the production,
//! unless it says that it leaves some, and on `Ok` the cursor stands behind them. After a fault nobody reads on.
#![tactic(auto)]

mod cursor;
mod expression;
mod fault;
mod forms;
mod function;
mod keyword;
mod next;
mod operators;
mod plain;
mod program;
mod same;
mod statement;
mod stop;
mod target;
mod words;

pub use fault::ParseFault;
pub use program::functions;
pub use sk_refusals::Limited;
