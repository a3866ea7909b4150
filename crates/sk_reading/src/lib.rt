//! What is read of a list of tokens: definitions alone, in `specs/`, and the small types of which they speak.
//!
//! - `keyword`, `next`: reserved words, and what a token is apart from what it holds.
//! - `reach`: how much of an expression is read.
//! - `target`, `update`: what an assignment changes, and how.
//! - `setting`: the words that set something of an instance.
//! - `part`, `head`: which statements are read, and what a `for` begins with.
//! - `view`: how a parameter sees a container.
//!
//! `specs/Reading` has the steps, and a file for each of expressions, assignments, other statements without blocks
//! (`ReadingForms`), all statements, and programs.
#![tactic(auto)]

mod head;
mod keyword;
mod next;
mod part;
mod reach;
mod setting;
mod target;
mod update;
mod view;

pub use head::Head;
pub use keyword::Keyword;
pub use next::Next;
pub use part::Part;
pub use reach::Reach;
pub use setting::SettingWord;
pub use target::Target;
pub use update::Update;
pub use view::View;
