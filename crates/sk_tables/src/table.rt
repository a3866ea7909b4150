//! Tables of rows, of which something is asked.
use crate::lines::{Teller, print_told};
use crate::shown::push_shown;
use crate::texts::{spelt, word_of};
use std::alloc::{AllocError, AllocGlobal, Global};
use std::io;

/// A row: its own text, the two texts that it stands between, and all three.
#[derive(Drop)]
pub struct Row {
    pub text: Vec<u8>,
    pub around: Vec<u8>,
    pub whole: Vec<u8>,
}

/// What answers the rows of a table.
pub trait Answers {
    /// What is answered for a row, of which this is asked.
    fn answer(&mut self, alloc: Global, question: &str, row: &Row) -> Result<String, AllocError>;
}

/// How far a table has been read: what is asked of the rows that follow, how often their repeated parts stand, the texts
/// that they and their answers stand between, and the answer that the next row has to have.
#[derive(Drop)]
struct Table {
    question: String,
    times: usize,
    before: Vec<u8>,
    after: Vec<u8>,
    answer_before: Vec<u8>,
    answer_after: Vec<u8>,
    wanted: Option<Vec<u8>>,
}

/// A table, and what answers its rows.
#[derive(Drop)]
struct Asked<'a, A> {
    table: Table,
    answers: &'a mut A,
}

/// Reads a table, and prints it with the answers of its rows.
pub fn print_answers<R: Input + Print + AllocGlobal, A: Answers>(
    rt: &R,
    answers: &mut A,
) -> io::Result<()> {
    let mut asked = Asked {
        table: Table::new(rt.alloc()),
        answers,
    };
    print_told(rt, &mut asked)
}

impl<A: Answers> Teller for Asked<'_, A> {
    fn tell(&mut self, alloc: Global, line: &str) -> Result<Option<String>, AllocError> {
        self.table.read(alloc, self.answers, line)
    }
}

impl Table {
    /// A table of which nothing has been read: its rows stand alone, and nothing is asked of them.
    fn new(alloc: Global) -> Table {
        Table {
            question: String::new(alloc),
            times: 1,
            before: Vec::new(alloc),
            after: Vec::new(alloc),
            answer_before: Vec::new(alloc),
            answer_after: Vec::new(alloc),
            wanted: None,
        }
    }

    /// Reads a line, and gives what is to be printed for it, if anything is.
    fn read<A: Answers>(
        &mut self,
        alloc: Global,
        answers: &mut A,
        line: &str,
    ) -> Result<Option<String>, AllocError> {
        let (word, text) = word_of(line);
        if word == "row" {
            return Ok(Some(self.row(alloc, answers, text)?));
        }
        if self.is_setting(alloc, word, text)? || self.is_around(alloc, word, text)? {
            return Ok(None);
        }
        Ok(Some(String::from_str(alloc, line)?))
    }

    /// Whether a line says how the rows that follow are read, which it then sets.
    fn is_setting(&mut self, alloc: Global, word: &str, text: &str) -> Result<bool, AllocError> {
        if word == "ask" {
            self.question = String::from_str(alloc, text)?;
        } else if word == "times" {
            self.times = text.parse().unwrap_or(0);
        } else if word == "wanted" {
            self.wanted = Some(spelt(alloc, text, self.times)?);
        } else if word == "frame" {
            self.stand_alone();
        } else {
            return Ok(false);
        }
        Ok(true)
    }

    /// Clears the texts around rows and answers.
    fn stand_alone(&mut self) {
        self.before.clear();
        self.after.clear();
        self.answer_before.clear();
        self.answer_after.clear();
    }

    /// Whether a line adds to a text around the rows or the answers that follow, which it then does.
    fn is_around(&mut self, alloc: Global, word: &str, text: &str) -> Result<bool, AllocError> {
        let bytes = spelt(alloc, text, self.times)?;
        match self.around(word) {
            Some(around) => {
                around.extend_from_slice(bytes.as_slice())?;
                Ok(true)
            }
            None => Ok(false),
        }
    }

    /// The text around rows or answers that this word adds to.
    fn around(&mut self, word: &str) -> Option<&mut Vec<u8>> {
        if word == "before" {
            Some(&mut self.before)
        } else if word == "after" {
            Some(&mut self.after)
        } else if word == "answer-before" {
            Some(&mut self.answer_before)
        } else if word == "answer-after" {
            Some(&mut self.answer_after)
        } else {
            None
        }
    }

    /// A row's answer, with its text behind it.
    fn row<A: Answers>(
        &mut self,
        alloc: Global,
        answers: &mut A,
        text: &str,
    ) -> Result<String, AllocError> {
        let row = self.framed(alloc, text)?;
        let answer = answers.answer(alloc, self.question.as_str(), &row)?;
        let shown = self.shown(alloc, answer.as_bytes())?;
        if text.is_empty() {
            format!(in alloc; "{shown}:")
        } else {
            format!(in alloc; "{shown}: {text}")
        }
    }

    /// A text as a row between the two that it stands between.
    fn framed(&self, alloc: Global, text: &str) -> Result<Row, AllocError> {
        let text = spelt(alloc, text, self.times)?;
        let around = self.between(alloc, &[])?;
        let whole = self.between(alloc, text.as_slice())?;
        Ok(Row {
            text,
            around,
            whole,
        })
    }

    /// Bytes between the two texts that rows stand between.
    fn between(&self, alloc: Global, bytes: &[u8]) -> Result<Vec<u8>, AllocError> {
        let mut out = self.before.as_slice().to_vec(alloc)?;
        out.extend_from_slice(bytes)?;
        out.extend_from_slice(self.after.as_slice())?;
        Ok(out)
    }

    /// What is printed of an answer.
    fn shown(&mut self, alloc: Global, answer: &[u8]) -> Result<String, AllocError> {
        if let Some(wanted) = self.wanted.take() {
            if wanted.as_slice() == answer {
                return String::from_str(alloc, "as wanted");
            }
        }
        let mut out = String::new(alloc);
        push_shown(&mut out, self.inner(answer))?;
        Ok(out)
    }

    /// An answer without the texts that answers stand between, where it stands between them.
    fn inner<'a>(&self, answer: &'a [u8]) -> &'a [u8] {
        answer
            .strip_prefix(self.answer_before.as_slice())
            .and_then(|rest| rest.strip_suffix(self.answer_after.as_slice()))
            .unwrap_or(answer)
    }
}
