ghost use Rattle.std.specs.Prelude.{◌≡◌, ◌==◌, IfOk, codes, drop, map};
ghost use Rattle.std.specs.List.{slice_split};
ghost use Rattle.sk_names.specs.Bytes.{same_bytes};
ghost use Rattle.sk_trace.specs.Candidates.{cell_in, list_in, narrow_in, wide_in, word_at, words_in};

use crate::named::is;
use crate::numbers::{cell, narrow, wide};
use sk_base::Cell;
use std::alloc::{AllocError, Global};
use std::marker::Model;

/// No line but those of `write` has more words, and no word is made of more.
const MOST_WORDS: usize = 11;

/// The first words of a text, which contracts see as their list.
#[derive(Drop)]
pub struct Words<'a> {
    words: Vec<&'a [u8]>,
}

impl<'a> Model for Words<'a> {
    ghost use Rattle.std.specs.Prelude.{ℕ, List, map};

    ghost Value = { List (List ℕ) };

    ghost view = { λ s. map (λ word. word.now) s.words.items };
}

impl<'a> Words<'a> {
    /// The first words of a text, with this byte between them.
    pub fn between(alloc: Global, mark: u8, text: &'a [u8]) -> Result<Words<'a>, AllocError>
        ensures { IfOk result (λ words. words ≡ words_in mark text.now) }
    {
        let words = first_words(alloc, mark, text)?;
        Ok(Words { words })
    }

    /// The word at this place, or an empty one.
    pub fn word(&self, place: usize) -> &'a [u8]
        ensures { result.now ≡ word_at self.now place }
    {
        match self.words.get(place) {
            Some(word) => word,
            None => &[],
        }
    }

    /// The number of 64 bits at this place.
    pub fn wide(&self, place: usize) -> u64
        ensures { result ≡ wide_in (word_at self.now place) }
    {
        wide(self.word(place))
    }

    /// The number of 32 bits at this place.
    pub fn narrow(&self, place: usize) -> u32
        ensures { result ≡ narrow_in (word_at self.now place) }
    {
        narrow(self.word(place))
    }

    /// The cell at this place.
    pub fn cell(&self, place: usize) -> Cell
        ensures { result ≡ cell_in (word_at self.now place) }
    {
        cell(self.word(place))
    }
}

/// The first words of a text as they stand in it.
fn first_words(alloc: Global, mark: u8, text: &[u8]) -> Result<Vec<&[u8]>, AllocError>
    ensures { IfOk result (λ words. map (λ word. word.now) words.items ≡ words_in mark text.now) }
{
    text.split(|byte| *byte == mark)
        .take(MOST_WORDS)
        .collect(alloc)
}

/// The cells of a text with this byte between them, but for the first few words.
pub fn cells_between(
    alloc: Global,
    mark: u8,
    passed_over: usize,
    text: &[u8],
) -> Result<Vec<Cell>, AllocError>
    ensures { IfOk result (λ cells. cells.items ≡ map cell_in (drop passed_over (slice_split (λ byte. byte == mark) text.now))) }
{
    text.split(|byte| *byte == mark)
        .skip(passed_over)
        .map(cell)
        .collect(alloc)
}

/// The numbers of 64 bits of a text with commas between them.
fn numbers_between(alloc: Global, text: &[u8]) -> Result<Vec<u64>, AllocError>
    ensures { IfOk result (λ numbers. numbers.items ≡ map wide_in (slice_split (λ byte. byte == 44) text.now)) }
{
    text.split(|byte| *byte == b',').map(wide).collect(alloc)
}

/// Whether a word stands for what is absent.
pub fn is_absent(word: &[u8]) -> bool
    ensures { result ≡ same_bytes word.now (codes "-") }
{
    is(word, b"-")
}

/// The numbers of a list.
pub fn numbers_of(alloc: Global, word: &[u8]) -> Result<Vec<u64>, AllocError>
    ensures { IfOk result (λ numbers. numbers.items ≡ map wide_in (list_in word.now)) }
{
    if is_absent(word) {
        Ok(Vec::new(alloc))
    } else {
        numbers_between(alloc, word)
    }
}

/// The cells of a list.
pub fn cells_of(alloc: Global, word: &[u8]) -> Result<Vec<Cell>, AllocError>
    ensures { IfOk result (λ cells. cells.items ≡ map cell_in (list_in word.now)) }
{
    if is_absent(word) {
        Ok(Vec::new(alloc))
    } else {
        cells_between(alloc, b',', 0, word)
    }
}
