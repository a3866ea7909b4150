/// How a parameter sees a container.
#[derive(Clone, Copy, PartialEq, Eq, Debug)]
pub enum View {
    /// As a whole.
    Whole(u8),
    /// The elements round a place.
    Round(u8),
}
