ghost use Rattle.std.specs.Prelude.{◌^◌, ◌<◌, ℕ, length, IfOk, IfSome};
ghost use Rattle.sk_ranks.specs.RankMachine.{after_at};

use crate::followers::Followers;
use crate::number_set::NumberSet;
use crate::plan::Message;
use std::alloc::{AllocError, Global};

/// The messages that may be sent, and those that wait for each job.
#[derive(Drop)]
pub struct Sends {
    pub ready: NumberSet,
    pub after: Followers,
}

impl Sends {
    ghost use Rattle.sk_ranks.specs.Kept.{StartsSends};

    /// Those of a phase before its first act.
    pub fn new(alloc: Global, messages: &[Message], jobs: usize) -> Result<Sends, AllocError>
        requires few { length messages.now < 2 ^ 31 }
        requires sender { (m : ℕ) → IfSome (after_at messages.now m) (λ j. j < jobs) }
        ensures { IfOk result (λ sends. StartsSends messages.now jobs sends) }
    {
        let mut ready = NumberSet::new(alloc, messages.len())?;
        let mut after = Followers::new(alloc, jobs)?;
        'messages: for (number, message) in messages.iter().enumerate() {
            match message.after {
                Some(job) => after.add(number as u32, &[job])?,
                None => ready.insert(number as u32),
            }
        }
        Ok(Sends { ready, after })
    }
}
