//! A journal that keeps its steps.
ghost use Rattle.std.specs.Prelude.{◌≡◌, ◌<◌, ◌≤◌, [], Some, OnOk, OnErr, IsOk};
ghost use Rattle.sk_spaces.specs.Journal.{no_totals};

use crate::journal::Journal;
use crate::memory::Memory;
use crate::step::Step;
use crate::totals::Totals;
use std::alloc::Global;
use std::marker::Model;

/// A journal that keeps the list of its steps.
#[derive(Debug, Drop)]
pub struct Kept {
    steps: Vec<Step>,
    totals: Totals,
}

impl Model for Kept {
    ghost use Rattle.std.specs.Prelude.{◌-◌, Some, vec_len, vec_capacity};
    ghost use Rattle.sk_spaces.specs.Journal.{JournalView};

    ghost Value = { JournalView };

    ghost view = { λ kept. record {
      steps = Some kept.steps.items;
      totals = kept.totals;
      spare = vec_capacity kept.steps - vec_len kept.steps;
    } };
}

impl Kept {
    /// A journal without steps. The allocator is kept, and asked for nothing.
    pub fn new(alloc: Global) -> Kept
        ensures steps { result.steps ≡ Some [] }
        ensures totals { result.totals ≡ no_totals }
    {
        Kept {
            steps: Vec::new(alloc),
            totals: Totals::new(),
        }
    }

    /// The steps in order.
    pub fn steps(&self) -> &[Step]
        ensures { self.now.steps ≡ Some result.now }
    {
        &self.steps
    }
}

impl Journal for Kept {
    ghost means = { λ kept. kept };

    fn reserve(&mut self, _alloc: Global, n: u32) -> Result<(), Memory> {
        self.steps.reserve(n as usize)?;
        Ok(())
    }

    fn note(&mut self, _alloc: Global, step: Step, far: bool) -> Result<(), Memory> {
        let totals = self.totals.with_step(&step, far);
        self.steps.push(step)?;
        self.totals = totals;
        Ok(())
    }

    fn totals(&self) -> Totals {
        self.totals
    }
}
