//! Straight code, evaluated for a block of places at a time.
//!
//! - `lanes`: the slots and arguments of a block of places.
//! - `level`: where the numbers of a value on the stack stand.
//! - `locals`: the slots of a code that stores some of them.
//! - `statements`: the run of a code for a block: values that are stored, and the one that is returned.
//! - `block`: the value of a piece of code, with choices between values.
//! - `step`: what one instruction does for a block.
//! - `combine`: which loop does what an instruction asks for.
//! - `apply`: an operator on two levels, whatever they are.
//! - `divide`: quotients and remainders by one number.
//! - `loops`: an operator on all cells of a row.
//! - `operators`: the operators on two cells, each at both types.
//! - `arithmetic`: their values.
//!
//! Each instruction is executed for all places of the block before the next one, and both sides of a choice are. Every other
//! jump, a store on one side of a choice, and a trap are left to the caller.
#![tactic(auto)]

mod apply;
mod arithmetic;
mod block;
mod combine;
mod divide;
mod lanes;
mod level;
mod locals;
mod loops;
mod operators;
mod statements;
mod step;

pub use block::is_straight;
pub use lanes::Lanes;
pub use level::Level;
pub use locals::stored_count;
pub use statements::evaluate;
