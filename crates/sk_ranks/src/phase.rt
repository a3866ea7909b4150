ghost use Rattle.std.specs.Prelude.{◌≡◌, ℕ, ◌+◌, ◌*◌, ◌^◌, ◌<◌, ◌↔◌, length, map, Some, true, IsTrue, IfOk, slice_get, option_map};
ghost use Rattle.sk_ranks.specs.RankMachine.{Phase, IsPlan, IsFinished, needs_in, start_of, enabled_of, performed, steps_left, can_send, can_deliver, can_run, IsEnabled};

use crate::act::{Act, MessageState};
use crate::number_set::NumberSet;
use crate::plan::{Job, Message};
use crate::runs::{Runs, count_down};
use crate::sends::Sends;
use sk_copies::Transfer;
use std::alloc::{AllocError, Global};
use std::marker::Model;

/// Want of memory.
#[derive(Clone, Copy, PartialEq, Eq, Debug)]
pub struct Memory;

impl From<AllocError> for Memory {
    fn from(_: AllocError) -> Memory {
        Memory
    }
}

/// A phase of messages and jobs, and what has come of them. Contracts see the machine's phase.
#[derive(Drop)]
pub struct RankPhase {
    messages: Vec<Message>,
    jobs: Vec<Job>,
    states: Vec<MessageState>,
    done: Vec<bool>,
    sends: Sends,
    in_flight: NumberSet,
    runs: Runs,
}

impl Model for RankPhase {
    ghost use Rattle.sk_ranks.specs.RankMachine.{Phase};

    ghost Value = { Phase };

    ghost use Rattle.sk_ranks.specs.Kept.{phase_of, IsKept};

    ghost view = { phase_of };

    ghost invariant = { IsKept };
}

impl RankPhase {
    /// A phase of these messages and jobs, before its first act. All memory that its steps need is taken here, in time
    /// linear in what was given, but for a logarithm.
    pub fn prepare(
        alloc: Global,
        messages: Vec<Message>,
        jobs: Vec<Job>,
    ) -> Result<RankPhase, Memory>
        requires few_messages { length messages.items < 2 ^ 31 }
        requires few_jobs { length jobs.items < 2 ^ 31 }
        requires plan { IsPlan messages.items (map needs_in jobs.items) }
        ensures start { IfOk result (λ phase. phase ≡ start_of messages.items (map needs_in jobs.items)) }
        ensures left { IfOk result (λ phase. steps_left phase ≡ 2 * length messages.items + length jobs.items) }
    {
        let states = vec![in alloc; MessageState::Unsent; messages.len()]?;
        let done = vec![in alloc; false; jobs.len()]?;
        let sends = Sends::new(alloc, &messages, jobs.len())?;
        let in_flight = NumberSet::new(alloc, messages.len())?;
        let runs = Runs::new(alloc, &jobs, messages.len())?;
        Ok(RankPhase {
            messages,
            jobs,
            states,
            done,
            sends,
            in_flight,
            runs,
        })
    }

    /// How many acts may come next, in constant time. A phase that is not finished has one.
    pub fn enabled(&self) -> u32
        ensures count { result ≡ length (enabled_of self.now) }
        ensures never_stuck { (result ≡ 0) ↔ IsFinished self.now }
    {
        self.sends.ready.count() + self.in_flight.count() + self.runs.ready.count()
    }

    /// Whether every message is delivered and every job done.
    pub fn done(&self) -> bool
        ensures { IsTrue result ↔ IsFinished self.now }
    {
        self.enabled() == 0
    }

    /// A message's transfer.
    pub fn transfer(&self, message: u32) -> &Transfer
        requires { message < length self.now.messages }
        ensures { option_map (λ m. m.transfer) (slice_get self.now.messages message) ≡ Some result.now }
    {
        &self.messages[message as usize].transfer
    }

    /// The act with this number among those that may come next.
    fn chosen(&self, choice: u32) -> Act
        requires { choice < length (enabled_of self.now) }
        ensures { slice_get (enabled_of self.now) choice ≡ Some result }
    {
        let sends = self.sends.ready.count();
        if choice < sends {
            return Act::Send(self.sends.ready.nth(choice));
        }
        let choice = choice - sends;
        let deliveries = self.in_flight.count();
        if choice < deliveries {
            return Act::Deliver(self.in_flight.nth(choice));
        }
        Act::Run(self.runs.ready.nth(choice - deliveries))
    }

    /// Sends a message.
    fn send(&mut self, message: u32)
        requires there { message < length self.old.messages }
        requires can { can_send self.old message ≡ true }
        ensures { self.new ≡ performed (Act.Send message) self.old }
    {
        self.states[message as usize] = MessageState::InFlight;
        self.sends.ready.remove(message);
        self.in_flight.insert(message);
    }

    /// Delivers a message; jobs that waited for it alone may run.
    fn deliver(&mut self, message: u32)
        requires there { message < length self.old.messages }
        requires can { can_deliver self.old message ≡ true }
        ensures { self.new ≡ performed (Act.Deliver message) self.old }
    {
        self.states[message as usize] = MessageState::Delivered;
        self.in_flight.remove(message);
        let waiting = self.runs.with_message.of(message);
        count_down(&mut self.runs.ready, &mut self.runs.lacks, waiting);
    }

    /// Runs a job; messages that waited for it may be sent, and jobs that waited for it alone may run.
    fn run(&mut self, job: u32)
        requires there { job < length self.old.jobs }
        requires can { can_run self.old job ≡ true }
        ensures { self.new ≡ performed (Act.Run job) self.old }
    {
        self.done[job as usize] = true;
        self.runs.ready.remove(job);
        self.sends.ready.insert_all(self.sends.after.of(job));
        let waiting = self.runs.after_job.of(job);
        count_down(&mut self.runs.ready, &mut self.runs.lacks, waiting);
    }

    /// Performs an act that may come next.
    fn perform(&mut self, act: Act)
        requires { IsEnabled self.old act }
        ensures { self.new ≡ performed act self.old }
    {
        match act {
            Act::Send(message) => self.send(message),
            Act::Deliver(message) => self.deliver(message),
            Act::Run(job) => self.run(job),
        }
    }

    /// Performs the act with this number among those that may come next: sends, then deliveries, then jobs, each by
    /// number. It takes no memory. The cost is logarithmic in the number of messages and jobs; that of counting down what
    /// jobs lack is linear over a whole run.
    pub fn step(&mut self, choice: u32) -> Act
        requires { choice < length (enabled_of self.old) }
        ensures chosen { slice_get (enabled_of self.old) choice ≡ Some result }
        ensures performed { self.new ≡ performed result self.old }
        ensures left { steps_left self.old ≡ steps_left self.new + 1 }
    {
        let act = self.chosen(choice);
        self.perform(act);
        act
    }
}
