/// What a program has too many of.
#[derive(Clone, Copy, PartialEq, Eq, Debug)]
pub enum Limited {
    Functions,
    Instances,
    Parameters,
    Nodes,
}

/// What is wrong at a token. The end of a list of tokens counts as one more.
#[derive(Clone, Copy, PartialEq, Eq, Debug)]
pub enum Refusal {
    /// No program goes on like this.
    Syntax,
    /// Too many parts are open round it.
    Deep,
    /// It is one too many of these.
    Many(Limited),
}
