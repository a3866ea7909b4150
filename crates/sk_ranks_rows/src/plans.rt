//! Messages and jobs as text.
use sk_base::Range;
use sk_copies::{CopyId, Transfer};
use sk_ranks::{Job, Message};
use std::alloc::Global;

/// The messages of these words: the job that each waits for, or `-` for none.
pub fn messages(alloc: Global, words: &str) -> Option<Vec<Message>> {
    let mut messages = Vec::new(alloc);
    for word in words.split_whitespace() {
        let number = messages.len() as u64;
        messages.push(message(number, word)?).ok()?;
    }
    Some(messages)
}

/// A message with one cell of a copy for the next.
fn message(number: u64, word: &str) -> Option<Message> {
    let after = if word == "-" {
        None
    } else {
        Some(word.parse().ok()?)
    };
    Some(Message {
        transfer: Transfer {
            from: CopyId { id: number },
            to: CopyId {
                id: number.checked_add(1)?,
            },
            range: Range { lo: 0, hi: 1 },
        },
        after,
    })
}

/// The jobs of these words: the messages that each waits for, `/`, and the jobs.
pub fn jobs(alloc: Global, words: &str) -> Option<Vec<Job>> {
    let mut jobs = Vec::new(alloc);
    for word in words.split_whitespace() {
        jobs.push(job(alloc, word)?).ok()?;
    }
    Some(jobs)
}

/// A job of one rank.
fn job(alloc: Global, word: &str) -> Option<Job> {
    let (messages, after) = word.split_once('/')?;
    Some(Job {
        rank: 1,
        messages: numbers(alloc, messages)?,
        after: numbers(alloc, after)?,
    })
}

/// Numbers with commas between.
fn numbers(alloc: Global, text: &str) -> Option<Vec<u32>> {
    let mut numbers = Vec::new(alloc);
    if text.is_empty() {
        return Some(numbers);
    }
    for number in text.split(',') {
        numbers.push(number.parse().ok()?).ok()?;
    }
    Some(numbers)
}
