use sk_base::{Cell, Op, Ty};
use sk_names::{Name, Text};
use sqlite_items::Items;

/// An instruction. Addresses count from 0 in each code; slots, functions, containers and instances have numbers from 0.
/// A container's kind and a number of places are numbers of sizes, from 1 to 4.
#[derive(Debug, Drop)]
pub enum Instr {
    /// Pushes a number.
    Push(Cell),
    /// Drops the topmost value.
    Pop,
    /// Pushes a slot's value.
    Load(u32),
    /// Pops a value into a slot.
    Store(u32),
    /// Pushes a field of the parameter in a slot.
    Field(u32, Name),
    /// Pushes a size of a container, by the name of its method.
    Size(u32, Name),
    /// Pops that many places, and pushes the element there of a parameter, or of a container in main. It traps where there
    /// is none.
    Item(u32, u32),
    /// Pops that many distances, and pushes the element there of a region. It traps where one is above the overlap.
    Region(u32, u32),
    /// `-` in a type.
    Neg(Ty),
    /// `~` in a type.
    Inv(Ty),
    /// `!`
    Not,
    /// Reduces a value to an `int`.
    Wrap,
    /// Pops the right operand, then the left one, and pushes the operator's value in a type. It traps at a divisor 0.
    Binary(Op, Ty),
    /// Goes on at an address.
    Jump(u32),
    /// Pops a value, and goes on at an address where it is 0.
    Zero(u32),
    /// Takes one of the turns that are left, or traps.
    Turn,
    /// Calls a function: pops its arguments, and pushes its value.
    Call(u32),
    /// Ends a function with the topmost value.
    Ret,
    /// Counts a statement of main, and names its line.
    Count(u32),
    /// Makes a container of a kind, a type and so many sizes: pops a fill value, then the sizes.
    Make(u32, u8, Ty, u32),
    /// Makes a container of a kind and a type from an input.
    Take(u32, u8, Ty, Text),
    /// Ends a container.
    Drop(u32),
    /// Gives an instance a setting by its word with so many values popped, or a mode by the mode's word.
    Set(u32, Name, u32),
    /// Calls an instance with containers, the result first, and so many uniform arguments popped.
    Do(u32, Items<u32>, u32),
    /// Calls an instance with containers and so many uniform arguments popped, and pushes its value.
    Get(u32, Items<u32>, u32),
    /// Pops a value, then so many places, and writes the element there.
    Poke(u32, u32),
    /// Pops a value and prints it.
    Print,
    /// Prints a text.
    Text(Text),
    /// Prints the end of a line.
    Endl,
    /// Ends main.
    Halt,
}

/// The code of a function or of main: its instructions, how many slots it has, parameters first, and the most values that
/// stand on its stack.
#[derive(Debug, Drop)]
pub struct Code {
    pub instrs: Items<Instr>,
    pub slots: u32,
    pub depth: u32,
}
