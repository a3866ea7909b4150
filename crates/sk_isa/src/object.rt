use crate::code::Code;
use sk_base::{Ty, Variant};
use sk_names::Name;
use sk_tree::{Declared, Operator, ParamKind, Skeleton};
use sqlite_items::Items;

/// What a function takes and gives: the type of its value, the kinds of its parameters, and those of all its slots, which
/// begin with the parameters.
#[derive(Debug, Drop)]
pub struct Signature {
    pub ret: Ty,
    pub params: Items<ParamKind>,
    pub slots: Items<ParamKind>,
}

/// A skeleton instance: its functions by number, how many of their first one's parameters are elements, and the variants
/// by which its calls may be run.
#[derive(Debug, Drop)]
pub struct Plan {
    pub name: Name,
    pub skeleton: Skeleton,
    pub functions: Items<u32>,
    pub elements: u32,
    pub variants: Items<Variant>,
}

/// A compiled program. Functions, instances, inputs and containers are counted in text order.
#[derive(Debug, Drop)]
pub struct Object {
    /// The functions before main.
    pub functions: Items<Code>,
    /// Of each function, and last of main.
    pub signatures: Items<Signature>,
    /// Of each function, whether it is known never to trap.
    pub safe: Items<bool>,
    /// Of each function, the associative operator that it is known to be.
    pub operators: Items<Option<Operator>>,
    pub instances: Items<Plan>,
    pub main: Code,
    pub inputs: Items<Declared>,
    pub containers: Items<Declared>,
    /// The names of the functions.
    pub names: Items<Name>,
}
