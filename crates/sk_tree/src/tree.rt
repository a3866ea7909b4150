use sk_base::{Cell, EdgeMode, Op, Ty};
use sk_names::{Name, Text};
use sqlite_items::{Boxed, Items};

/// A prefix of an expression.
#[derive(Clone, Copy, PartialEq, Eq, Debug)]
pub enum Un {
    /// `-`
    Neg,
    /// `~`
    Inv,
    /// `!`
    Not,
}

/// An expression. Parentheses have left no trace.
#[derive(Debug, Drop)]
pub enum Expr {
    /// A number of its type.
    Number(Ty, Cell),
    /// A scalar.
    Name(Name),
    /// `name.field`
    Field(Name, Name),
    /// `name.method()`
    Method(Name, Name),
    Unary(Un, Boxed<Expr>),
    /// `(int)` or `(long)`
    Cast(Ty, Boxed<Expr>),
    Binary(Op, Boxed<Expr>, Boxed<Expr>),
    /// `&&`
    Both(Boxed<Expr>, Boxed<Expr>),
    /// `||`
    Either(Boxed<Expr>, Boxed<Expr>),
    /// `test ? one : other`
    Choose(Boxed<Expr>, Boxed<Expr>, Boxed<Expr>),
    /// A call of a function or an instance, or the element of a container at a place.
    Apply(Name, Items<Expr>),
}

/// A skeleton (SkePU's skeletons have these names).
#[derive(Clone, Copy, PartialEq, Eq, Debug)]
pub enum Skeleton {
    Map,
    Reduce,
    Scan,
    MapReduce,
    MapOverlap,
    MapPairs,
    MapPairsReduce,
    Call,
}

/// The declaration of a skeleton instance.
#[derive(Debug, Drop)]
pub struct Instance {
    pub name: Name,
    pub skeleton: Skeleton,
    /// The numbers between `<` and `>`, if any.
    pub numbers: Items<Cell>,
    /// The functions that it is made of.
    pub functions: Items<Name>,
}

/// A setting of an instance.
#[derive(Debug, Drop)]
pub enum Setting {
    /// `setStartValue`
    Start(Expr),
    /// `setScanMode`: whether it is exclusive.
    Scan(bool),
    /// `setReduceMode`: whether it goes by columns.
    Lines(bool),
    /// `setOverlap`
    Overlap(Items<Expr>),
    /// `setEdgeMode`
    Edge(EdgeMode),
    /// `setPad`
    Pad(Expr),
}

/// An item that is printed.
#[derive(Debug, Drop)]
pub enum Item {
    Value(Expr),
    Text(Text),
    /// `std::endl`
    End,
}

/// A statement and its line: that of its first token, but for the first statement and the step of a `for`, which have the
/// line of the keyword.
#[derive(Debug, Drop)]
#[cycle(statement)]
pub struct Statement {
    pub line: u32,
    pub what: What,
}

/// What a statement does. A container's kind is its number of sizes, from 1 to 4.
#[derive(Debug, Drop)]
#[cycle(statement)]
pub enum What {
    /// `type name = value`
    Declare(Ty, Name, Expr),
    /// `name = value`
    Assign(Name, Expr),
    /// `name(places) = value`
    Poke(Name, Items<Expr>, Expr),
    /// The declaration of a container with its arguments: its sizes, and a fill value where there is one more.
    Make(u8, Ty, Name, Items<Expr>),
    /// The declaration of a container that takes an input.
    Take(u8, Ty, Name, Text),
    Instance(Instance),
    Set(Name, Setting),
    /// A call as a statement.
    Call(Name, Items<Expr>),
    Print(Items<Item>),
    /// A test, the block where it holds, and the block where it does not.
    If(Expr, Items<Statement>, Items<Statement>),
    /// What comes first, the test, the step and the body.
    For(Boxed<Statement>, Expr, Boxed<Statement>, Items<Statement>),
    Return(Expr),
}

/// The kind of a parameter; a dimension is a number of sizes, from 1 to 4.
#[derive(Clone, Copy, PartialEq, Eq, Debug)]
pub enum ParamKind {
    Scalar(Ty),
    /// The place that is computed (SkePU's `IndexND`).
    Index(u8),
    /// A whole container (SkePU's `Vec`, `Mat`, `Ten3` and `Ten4`).
    Proxy(u8, Ty),
    /// The elements round a place (SkePU's `RegionND`).
    Region(u8, Ty),
}

/// A parameter of a function.
#[derive(Debug, Drop)]
pub struct Param {
    pub kind: ParamKind,
    pub name: Name,
}

/// A function; its line is that of its first token.
#[derive(Debug, Drop)]
pub struct Function {
    pub line: u32,
    pub ret: Ty,
    pub name: Name,
    pub params: Items<Param>,
    pub body: Items<Statement>,
}

/// A whole program: its functions in text order.
#[derive(Debug, Drop)]
pub struct Program {
    pub functions: Items<Function>,
}
