ghost use Rattle.std.specs.Prelude.{◌≡◌, ℕ, ℤ, ◌<◌, ◌≤◌, ◌+◌, ◌-◌, ◌^◌, suc, pos, List, ◌∷◌, length, slice_set, slice_index_or};
ghost use Rattle.sk_vm.specs.Points.{values_in};

use sk_base::{Cell, Trap};

/// Where main's run stands: the address of the next instruction, and how many values are on the stack.
#[derive(Clone, Copy)]
pub struct Stand {
    pub at: usize,
    pub top: usize,
}

impl Stand {
    /// The next address, with so many values on the stack.
    #[inline]
    pub fn past(self, top: usize) -> Stand
        requires { self.at + 1 < 2 ^ 64 }
        ensures { result ≡ record { at = suc self.at; top = top } }
    {
        Stand {
            at: self.at + 1,
            top,
        }
    }
}

/// How far a run has come: where it stands, how many statements it may still execute, and the line of the last one.
#[derive(Clone, Copy)]
pub struct State {
    pub stand: Stand,
    pub left: u64,
    pub line: u32,
}

/// Where an instruction leads that neither prints nor counts.
#[derive(Clone, Copy)]
pub enum Lead {
    /// The run goes on.
    Goes(Stand),
    /// A trap, with its element.
    Traps(Trap, u32),
}

/// The topmost value.
#[inline]
pub fn last(stack: &[Cell], top: usize) -> Cell
    requires some { 0 < top }
    requires inside { top ≤ length stack.now }
    ensures { values_in stack.now top ≡ result ∷ values_in stack.now (top - 1) }
{
    stack[top - 1]
}

/// Puts a value on the first `top` ones.
#[inline]
pub fn put(stack: &mut [Cell], top: usize, value: Cell)
    requires room { top < length stack.old }
    ensures values { values_in stack.new (suc top) ≡ value ∷ values_in stack.old top }
    ensures len { length stack.new ≡ length stack.old }
{
    stack[top] = value;
}
