//! What is told of a row.
ghost use Rattle.std.specs.Prelude.{map};
ghost use Rattle.sk_ranks.specs.RankMachine.{IsPlan, needs_in};

use crate::plans::{jobs, messages};
use sk_ranks::{Act, Job, Message, RankPhase, is_plan};
use sk_tables::{Answers, Row};
use std::alloc::{AllocError, Global};
use std::fmt::Write;
use std::str::from_utf8;

/// No row has so many messages or jobs.
const MANY: usize = 1000;

/// The answers of the rank machine.
#[derive(Drop)]
pub struct Ranks;

impl Answers for Ranks {
    fn answer(&mut self, alloc: Global, question: &str, row: &Row) -> Result<String, AllocError> {
        let text = from_utf8(row.whole.as_slice()).unwrap_or("");
        let (messages_text, rest) = text.split_once(';').unwrap_or((text, ""));
        let (jobs_text, choices) = rest.split_once(';').unwrap_or((rest, ""));
        let Some(messages) = messages(alloc, messages_text) else {
            return String::from_str(alloc, "no messages");
        };
        let Some(jobs) = jobs(alloc, jobs_text) else {
            return String::from_str(alloc, "no jobs");
        };
        if !is_plan(&messages, &jobs) {
            return String::from_str(alloc, "no plan");
        }
        if question == "plan" {
            return String::from_str(alloc, "a plan");
        }
        played(alloc, messages, jobs, choices)
    }
}

/// What comes of a phase by these choices.
fn played(
    alloc: Global,
    messages: Vec<Message>,
    jobs: Vec<Job>,
    choices: &str,
) -> Result<String, AllocError>
    requires { IsPlan messages.items (map needs_in jobs.items) }
{
    if messages.len() >= MANY || jobs.len() >= MANY {
        return String::from_str(alloc, "too many");
    }
    let Ok(mut phase) = RankPhase::prepare(alloc, messages, jobs) else {
        return String::from_str(alloc, "out of memory");
    };
    let mut out = String::new(alloc);
    for choice in choices.split_whitespace() {
        push_step(&mut out, &mut phase, choice)?;
    }
    let enabled = phase.enabled();
    let end = if phase.done() { "done" } else { "not done" };
    write!(out, "{enabled} {end}")?;
    Ok(out)
}

/// Adds how many acts may come, and the act that this choice names, which is then done.
fn push_step(out: &mut String, phase: &mut RankPhase, choice: &str) -> Result<(), AllocError> {
    let enabled = phase.enabled();
    if phase.done() {
        return write!(out, "{enabled} done too early, ");
    }
    match step(phase, choice.parse().unwrap_or(u32::MAX)) {
        Some(act) => write!(out, "{enabled} {act:?}, "),
        None => write!(out, "{enabled} no act, "),
    }
}

/// The act with this number, or none where fewer may come.
fn step(phase: &mut RankPhase, choice: u32) -> Option<Act> {
    if choice < phase.enabled() {
        Some(phase.step(choice))
    } else {
        None
    }
}
