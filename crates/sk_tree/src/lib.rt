//! Programs as trees.
//!
//! - `tree`: programs, functions, statements and expressions.
//! - `declared`: what is told of a program's containers and inputs.
//! - `operator`: the associative operators.
//! - `settings`: the settings of a skeleton instance.
//!
//! What several walks over trees share, the parts of functions, parameters and skeletons, stands in `specs/`.
#![tactic(auto)]

mod declared;
mod operator;
mod settings;
mod tree;

pub use declared::Declared;
pub use operator::{Operator, OperatorKind};
pub use settings::Settings;
pub use tree::{
    Expr, Function, Instance, Item, Param, ParamKind, Program, Setting, Skeleton, Statement, Un,
    What,
};
