use sk_base::Op;

/// What a sign behind a target does.
#[derive(Clone, Copy, PartialEq, Eq, Debug)]
pub enum Update {
    /// `=`
    Value,
    /// `+=` and the like: joins a value to the old one.
    Joined(Op),
    /// `++` or `--`
    Step(Op),
}
