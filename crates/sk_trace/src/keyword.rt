ghost use Rattle.std.specs.Prelude.{◌≡◌};
ghost use Rattle.sk_trace.specs.Lines.{keyword_of, keyword_word};
ghost use Rattle.sk_trace.specs.Candidates.{keyword_named};

use crate::named::is;
use sk_spaces::Step;

/// The first word of a line, one for each kind of step.
#[derive(Clone, Copy, Debug)]
pub enum Keyword {
    Memory,
    Store,
    Alloc,
    Free,
    Stale,
    Copy,
    Back,
    Send,
    Deliver,
    Fill,
    Write,
    Poke,
    Clone,
    Call,
    Kernel,
    Read,
    Bind,
    Unbind,
    Flush,
}

impl Keyword {
    /// The keyword of a step's line.
    pub fn of(step: &Step) -> Keyword
        ensures { result ≡ keyword_of step.now }
    {
        match step {
            Step::Memory { .. } => Keyword::Memory,
            Step::Store { .. } => Keyword::Store,
            Step::Alloc { .. } => Keyword::Alloc,
            Step::Free { .. } => Keyword::Free,
            Step::Stale { .. } => Keyword::Stale,
            Step::Copy { .. } => Keyword::Copy,
            Step::Back { .. } => Keyword::Back,
            Step::Send { .. } => Keyword::Send,
            Step::Deliver { .. } => Keyword::Deliver,
            Step::Fill { .. } => Keyword::Fill,
            Step::Write { .. } => Keyword::Write,
            Step::Poke { .. } => Keyword::Poke,
            Step::Clone { .. } => Keyword::Clone,
            Step::Call { .. } => Keyword::Call,
            Step::Kernel { .. } => Keyword::Kernel,
            Step::Read { .. } => Keyword::Read,
            Step::Bind { .. } => Keyword::Bind,
            Step::Unbind { .. } => Keyword::Unbind,
            Step::Flush => Keyword::Flush,
        }
    }

    /// The word itself.
    pub fn word(self) -> &'static [u8]
        ensures { result.now ≡ keyword_word self }
    {
        match self {
            Keyword::Memory => b"memory",
            Keyword::Store => b"store",
            Keyword::Alloc => b"alloc",
            Keyword::Free => b"free",
            Keyword::Stale => b"stale",
            Keyword::Copy => b"copy",
            Keyword::Back => b"back",
            Keyword::Send => b"send",
            Keyword::Deliver => b"deliver",
            Keyword::Fill => b"fill",
            Keyword::Write => b"write",
            Keyword::Poke => b"poke",
            Keyword::Clone => b"clone",
            Keyword::Call => b"call",
            Keyword::Kernel => b"kernel",
            Keyword::Read => b"read",
            Keyword::Bind => b"bind",
            Keyword::Unbind => b"unbind",
            Keyword::Flush => b"flush",
        }
    }

    /// The keyword with this word, if it is one.
    pub fn named(word: &[u8]) -> Option<Keyword>
        ensures { result ≡ keyword_named word.now }
    {
        if is(word, b"memory") {
            Some(Keyword::Memory)
        } else if is(word, b"store") {
            Some(Keyword::Store)
        } else if is(word, b"alloc") {
            Some(Keyword::Alloc)
        } else if is(word, b"free") {
            Some(Keyword::Free)
        } else if is(word, b"stale") {
            Some(Keyword::Stale)
        } else if is(word, b"copy") {
            Some(Keyword::Copy)
        } else if is(word, b"back") {
            Some(Keyword::Back)
        } else if is(word, b"send") {
            Some(Keyword::Send)
        } else if is(word, b"deliver") {
            Some(Keyword::Deliver)
        } else if is(word, b"fill") {
            Some(Keyword::Fill)
        } else if is(word, b"write") {
            Some(Keyword::Write)
        } else if is(word, b"poke") {
            Some(Keyword::Poke)
        } else if is(word, b"clone") {
            Some(Keyword::Clone)
        } else if is(word, b"call") {
            Some(Keyword::Call)
        } else if is(word, b"kernel") {
            Some(Keyword::Kernel)
        } else if is(word, b"read") {
            Some(Keyword::Read)
        } else if is(word, b"bind") {
            Some(Keyword::Bind)
        } else if is(word, b"unbind") {
            Some(Keyword::Unbind)
        } else if is(word, b"flush") {
            Some(Keyword::Flush)
        } else {
            None
        }
    }
}
