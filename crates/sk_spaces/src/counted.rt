//! A journal that keeps its totals alone.
ghost use Rattle.std.specs.Prelude.{◌≡◌, ◌<◌, ◌≤◌, ◌^◌, None, OnOk, OnErr, IsOk};
ghost use Rattle.sk_spaces.specs.Journal.{no_totals, IsSame, Notes};

use crate::journal::Journal;
use crate::memory::Memory;
use crate::step::Step;
use crate::totals::Totals;
use std::alloc::Global;
use std::marker::Model;

/// A journal that keeps the totals and no step. There is always room in it, and it takes no memory.
#[derive(Debug, Drop)]
pub struct Counted {
    totals: Totals,
}

impl Model for Counted {
    ghost use Rattle.std.specs.Prelude.{◌^◌, None};
    ghost use Rattle.sk_spaces.specs.Journal.{JournalView};

    ghost Value = { JournalView };

    ghost view = { λ counted. record { steps = None; totals = counted.totals; spare = 2 ^ 32 } };
}

impl Counted {
    /// A journal without steps.
    pub fn new() -> Counted
        ensures { result ≡ record { steps = None; totals = no_totals; spare = 2 ^ 32 } }
    {
        Counted {
            totals: Totals::new(),
        }
    }
}

impl Journal for Counted {
    ghost means = { λ counted. counted };

    fn reserve(&mut self, _alloc: Global, n: u32) -> Result<(), Memory>
        ensures same { IsSame self.old self.new }
        ensures kept { self.old.spare ≤ self.new.spare }
        ensures ok { OnOk result (n ≤ self.new.spare) }
        ensures succeeds { IsOk result }
    {
        let _ = &self.totals;
        Ok(())
    }

    fn note(&mut self, _alloc: Global, step: Step, far: bool) -> Result<(), Memory>
        ensures ok { OnOk result (Notes self.old self.new step far) }
        ensures room { self.new.spare ≡ 2 ^ 32 }
        ensures succeeds { IsOk result }
        ensures err { OnErr result (IsSame self.old self.new) }
    {
        self.totals = self.totals.with_step(&step, far);
        Ok(())
    }

    fn totals(&self) -> Totals {
        self.totals
    }
}
