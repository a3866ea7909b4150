ghost use Rattle.std.specs.Prelude.{◌≡◌};
ghost use Rattle.sk_typing.specs.TypingFaults.{least_of};
ghost use Rattle.sk_typing.specs.TypingNames as names;
ghost use Rattle.sk_typing.specs.TypingStatements as statements;
ghost use Rattle.sk_types.specs.Told.{seen};

use sk_tree::Function;
use sk_typing::{Fault, FaultKind, Known};

/// The names in scope where something stands, which contracts see as their list, the latest first.
pub(crate) type Scopes<'a> = sk_scopes::Scopes<'a, Known>;

/// Where something stands: in the function of that number among all of the program's, which may be main, in its outermost
/// block or not, and in a statement of that line.
#[derive(Clone, Copy)]
pub(crate) struct Around<'a> {
    pub(crate) functions: &'a [Function],
    pub(crate) number: usize,
    pub(crate) in_main: bool,
    pub(crate) outermost: bool,
    pub(crate) line: u32,
}

impl<'a> Around<'a> {
    /// A fault of the statement that this stands in.
    pub(crate) fn fault(&self, kind: FaultKind) -> Option<Fault>
        ensures { result ≡ least_of (names.fault (seen self.now) kind) }
    {
        Some(Fault::At(self.line, kind))
    }

    /// A fault of that kind, unless a rule is kept.
    pub(crate) fn unless(&self, kept: bool, kind: FaultKind) -> Option<Fault>
        ensures { result ≡ least_of (names.unless kept (seen self.now) kind) }
    {
        if kept { None } else { self.fault(kind) }
    }

    /// The same, in a statement of another line.
    pub(crate) fn at(&self, line: u32) -> Around<'a>
        ensures { seen result ≡ record (seen self.now) { line = line } }
    {
        Around { line, ..*self }
    }

    /// The same, in a block inside another one.
    pub(crate) fn inside(&self) -> Around<'a>
        ensures { seen result ≡ statements.inside (seen self.now) }
    {
        Around {
            outermost: false,
            ..*self
        }
    }
}
