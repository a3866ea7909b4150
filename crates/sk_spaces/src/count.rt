//! How one step changes the totals.
ghost use Rattle.std.specs.Prelude.{◌≡◌};
ghost use Rattle.sk_spaces.specs.Journal.{no_totals, with_step, kernels_in, work_in, cells_moved};

use crate::step::Step;
use crate::totals::Totals;

/// The cells that a step moves from one copy to another.
fn cells_moved(step: &Step) -> u32
    ensures { result ≡ cells_moved step.now }
{
    match step {
        Step::Copy { lo, hi, .. } | Step::Back { lo, hi, .. } | Step::Send { lo, hi, .. } => {
            hi.saturating_sub(*lo)
        }
        _ => 0,
    }
}

impl Totals {
    /// Before the first step.
    pub fn new() -> Totals
        ensures { result ≡ no_totals }
    {
        Totals {
            kernels: 0,
            work: 0,
            moved: 0,
        }
    }

    /// These totals with one more step. `far` tells whether it is a copy, a write-back or a message between two spaces.
    pub fn with_step(self, step: &Step, far: bool) -> Totals
        ensures { result ≡ with_step step.now far self }
    {
        let (kernels, work) = match step {
            Step::Kernel { lo, hi, .. } => (1, u64::from(hi.saturating_sub(*lo))),
            _ => (0, 0),
        };
        let moved = if far { u64::from(cells_moved(step)) } else { 0 };
        Totals {
            kernels: self.kernels.saturating_add(kernels),
            work: self.work.saturating_add(work),
            moved: self.moved.saturating_add(moved),
        }
    }
}
