/// Which statements are read.
#[derive(Clone, Copy, PartialEq, Eq, Debug)]
pub enum Part {
    /// Those of a block.
    Statements,
    /// An `if`, alone.
    Branch,
}
