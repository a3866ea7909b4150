use sk_base::Trap;

/// A trap of a skeleton call, and the least element at which it stands: an index of the result, or of the operand where a
/// fold has a number as its result.
#[derive(Clone, Copy, PartialEq, Eq, Debug)]
pub struct Trapped {
    pub trap: Trap,
    pub element: u32,
}
