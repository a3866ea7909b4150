/// Where the numbers of a value on the stack stand, one for each place of a block.
#[derive(Clone, Copy, PartialEq, Eq, Debug)]
pub enum Level {
    /// In the row of its height on the stack.
    Here,
    /// In a slot's column.
    Column(u32),
    /// It is one number at all places.
    Number(i64),
}
