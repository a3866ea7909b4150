ghost use Rattle.std.specs.Prelude.{◌≡◌, ◌<◌, ◌↔◌, ℕ, length, map, IsTrue, All, IfSome};
ghost use Rattle.sk_ranks.specs.RankMachine.{after_at, needs_in, IsPlan};
ghost use Rattle.sk_ranks.specs.Order.{IsOrdered};

use crate::plan::{Job, Message};

/// Whether the message waits for a job with a number below this one, or for none.
fn waits_below(message: &Message, jobs: usize) -> bool
    ensures { IsTrue result ↔ IfSome message.now.after (λ j. j < jobs) }
{
    match message.after {
        Some(job) => (job as usize) < jobs,
        None => true,
    }
}

/// Whether there is such a message, and it waits for a job below this one or for none.
fn is_earlier(messages: &[Message], message: u32, job: usize) -> bool
    ensures { IsTrue result ↔ ((message < length messages.now) × IfSome (after_at messages.now message) (λ i. i < job)) }
{
    match messages.get(message as usize) {
        Some(message) => waits_below(message, job),
        None => false,
    }
}

/// Whether every message waits for a job that is there, or for none.
fn have_senders(messages: &[Message], jobs: usize) -> bool
    ensures { IsTrue result ↔ All (λ message. IfSome message.after (λ j. j < jobs)) messages.now }
{
    messages.iter().all(|message| waits_below(message, jobs))
}

/// Whether all these jobs have numbers below this one.
fn are_below(jobs: &[u32], number: usize) -> bool
    ensures { IsTrue result ↔ All (λ i. i < number) jobs.now }
{
    jobs.iter().all(|job| (*job as usize) < number)
}

/// Whether all these messages are there, and each waits for a job below this one or for none.
fn are_earlier(messages: &[Message], named: &[u32], job: usize) -> bool
    ensures { IsTrue result ↔
        All (λ m. (m < length messages.now) × IfSome (after_at messages.now m) (λ i. i < job)) named.now }
{
    named
        .iter()
        .all(|message| is_earlier(messages, *message, job))
}

/// Whether the job with this number waits for earlier jobs, and for messages that wait for none or an earlier one.
fn is_ordered(messages: &[Message], number: usize, job: &Job) -> bool
    ensures { IsTrue result ↔ IsOrdered messages.now number (needs_in job.now) }
{
    are_below(&job.after, number) && are_earlier(messages, &job.messages, number)
}

/// Whether messages and jobs can be prepared as a phase: every number names one of them, a job waits for earlier jobs
/// alone, and each of its messages for no job or an earlier one. The cost is linear.
pub fn is_plan(messages: &[Message], jobs: &[Job]) -> bool
    ensures { IsTrue result ↔ IsPlan messages.now (map needs_in jobs.now) }
{
    if !have_senders(messages, jobs.len()) {
        return false;
    }
    'jobs: for (number, job) in jobs.iter().enumerate() {
        if !is_ordered(messages, number, job) {
            return false;
        }
    }
    true
}
