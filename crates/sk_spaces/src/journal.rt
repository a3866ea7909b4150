//! What takes the steps of a run.
ghost use Rattle.std.specs.Prelude.{◌≡◌, ◌<◌, ◌≤◌, OnOk, OnErr, IsOk};
ghost use Rattle.sk_spaces.specs.Journal.{JournalView, IsSame, Notes};

use crate::memory::Memory;
use crate::step::Step;
use crate::totals::Totals;
use std::alloc::Global;

/// What takes the steps of a run, one after another, and counts them. It may tell them as a list.
pub trait Journal {
    ghost means: { Self → JournalView };

    /// Makes room for so many steps; room that is there already counts.
    fn reserve(&mut self, alloc: Global, n: u32) -> Result<(), Memory>
        ensures same { IsSame (means self.old) (means self.new) }
        ensures kept { (means self.old).spare ≤ (means self.new).spare }
        ensures ok { OnOk result (n ≤ (means self.new).spare) };

    /// Takes one more step. `far` tells whether it is a copy, a write-back or a message whose two copies lie in different
    /// spaces. Where there is room for a step it takes no memory.
    fn note(&mut self, alloc: Global, step: Step, far: bool) -> Result<(), Memory>
        ensures ok { OnOk result (Notes (means self.old) (means self.new) step far) }
        ensures succeeds { 0 < (means self.old).spare → IsOk result }
        ensures err { OnErr result (IsSame (means self.old) (means self.new)) };

    /// What was counted of the steps.
    fn totals(&self) -> Totals
        ensures { result ≡ (means self.now).totals };
}
