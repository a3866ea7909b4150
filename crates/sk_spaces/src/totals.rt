//! What is counted of the steps of a run.
/// What is counted of the steps of a run. Each number stands still at its greatest value.
#[derive(Clone, Copy, PartialEq, Eq, Debug)]
pub struct Totals {
    /// The kernels that ran.
    pub kernels: u64,
    /// The cells of their ranges.
    pub work: u64,
    /// The cells of copies, write-backs and messages between two spaces.
    pub moved: u64,
}
