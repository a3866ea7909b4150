use sk_base::Ty;
use sk_tree::{ParamKind, Skeleton};
use sqlite_items::Items;

/// A kind of fault of names and types, in the order in which faults of one line are told.
#[derive(Clone, Copy, PartialEq, Eq, Debug)]
pub enum FaultKind {
    /// A name that is not in scope.
    Unknown,
    /// A declaration of a name that is in scope.
    Twice,
    /// A use that the rules do not allow.
    Mismatch,
    /// A wrong number of something.
    Arity,
    /// A function whose block does not return.
    NoReturn,
}

/// A fault of a program's names and types.
#[derive(Clone, Copy, PartialEq, Eq, Debug)]
pub enum Fault {
    /// A fault at a line.
    At(u32, FaultKind),
    /// There is no main, or there is one more.
    NoMain,
}

/// What an instance is known as: its skeleton, the number of its first function, and how many elements it takes.
#[derive(Clone, Copy, PartialEq, Eq, Debug)]
pub struct Made {
    pub skeleton: Skeleton,
    pub function: usize,
    pub elements: usize,
}

/// What a name in scope stands for.
#[derive(Clone, Copy, PartialEq, Eq, Debug)]
pub enum Known {
    /// A scalar, a parameter, or a container of main, which is known like a parameter that is a whole container.
    Variable(ParamKind),
    /// The function with that number in text order, from 0.
    Function(usize),
    Instance(Made),
    /// An instance whose declaration is at fault, so that nothing is known of its calls.
    Broken,
}

/// What an argument has to be.
#[derive(Clone, Copy, PartialEq, Eq, Debug)]
pub enum Expected {
    /// A value, of either type.
    Number,
    /// A container of that dimension, or of any, with elements of that type.
    Container(Option<u8>, Ty),
}

/// What comes of the use of a name with arguments.
#[derive(Debug, Drop)]
pub enum Use {
    /// It takes these arguments.
    Takes(Items<Expected>),
    /// It is at fault, whatever the arguments are.
    Wrong(FaultKind),
    /// Nothing is said of it.
    Free,
}
