use sk_base::Ty;
use sk_tree::{Param, Skeleton};

/// An instance that may be called: its number, its skeleton, how many elements its function has, the function's parameters,
/// and the type of its value.
#[derive(Clone, Copy)]
pub(crate) struct Made<'a> {
    pub number: u32,
    pub skeleton: Skeleton,
    pub elements: u32,
    pub params: &'a [Param],
    pub ret: Ty,
}

/// What a name of main stands for.
#[derive(Clone, Copy)]
pub(crate) enum Named<'a> {
    /// A scalar, by its slot.
    Number(u32, Ty),
    /// A container, by its number.
    Whole(u32, Ty),
    /// An instance.
    Called(Made<'a>),
}
