ghost use Rattle.std.specs.Prelude.{◌≡◌, IfOk, map};
ghost use Rattle.sk_trace.specs.Candidates.{call_in, candidate_of, cell_in, kernel_line_in, option_in, settings_in, shape_in, step_of, store_in, wide_in, narrow_in, list_in, write_in};

use crate::keyword::Keyword;
use crate::named::{edge_named, flag_named, kernel_named, mode_named, type_named, variant_named};
use crate::numbers::{cell, narrow, wide};
use crate::split::{Words, cells_between, cells_of, is_absent, numbers_of};
use sk_base::{Cell, Shape};
use sk_spaces::{CallSettings, Cells, Memory, Numbers, Step};
use std::alloc::{AllocError, Global};

/// The step that a line may be the line of: no other step has this line.
pub fn candidate(alloc: Global, line: &[u8]) -> Result<Option<Step>, Memory>
    ensures { IfOk result (λ step. step ≡ candidate_of line.now) }
{
    let words = Words::between(alloc, b' ', line)?;
    match Keyword::named(words.word(0)) {
        Some(keyword) => step(alloc, line, &words, keyword),
        None => Ok(None),
    }
}

/// The step of a line with this keyword and these first words.
fn step(
    alloc: Global,
    line: &[u8],
    words: &Words<'_>,
    keyword: Keyword,
) -> Result<Option<Step>, Memory>
    ensures { IfOk result (λ step. step ≡ step_of line.now words.now keyword) }
{
    match keyword {
        Keyword::Memory => Ok(Some(Step::Memory {
            ranks: words.narrow(1),
            capacity: words.narrow(2),
            tile: words.narrow(3),
            lineage: words.narrow(4),
        })),
        Keyword::Store => store(alloc, words),
        Keyword::Alloc => Ok(Some(Step::Alloc {
            copy: words.wide(1),
            store: words.wide(2),
            space: words.narrow(3),
            lo: words.narrow(4),
            hi: words.narrow(5),
        })),
        Keyword::Free => Ok(Some(Step::Free {
            copy: words.wide(1),
        })),
        Keyword::Stale => Ok(Some(Step::Stale {
            store: words.wide(1),
            lo: words.narrow(2),
            hi: words.narrow(3),
        })),
        Keyword::Copy => Ok(Some(Step::Copy {
            from: words.wide(1),
            to: words.wide(2),
            lo: words.narrow(3),
            hi: words.narrow(4),
        })),
        Keyword::Back => Ok(Some(Step::Back {
            from: words.wide(1),
            to: words.wide(2),
            lo: words.narrow(3),
            hi: words.narrow(4),
        })),
        Keyword::Send => Ok(Some(Step::Send {
            message: words.wide(1),
            from: words.wide(2),
            to: words.wide(3),
            lo: words.narrow(4),
            hi: words.narrow(5),
        })),
        Keyword::Deliver => Ok(Some(Step::Deliver {
            message: words.wide(1),
        })),
        Keyword::Fill => Ok(Some(Step::Fill {
            copy: words.wide(1),
            lo: words.narrow(2),
            hi: words.narrow(3),
            cell: words.cell(4),
        })),
        Keyword::Write => Ok(Some(write(alloc, line, words)?)),
        Keyword::Poke => Ok(Some(Step::Poke {
            copy: words.wide(1),
            index: words.narrow(2),
            cell: words.cell(3),
        })),
        Keyword::Clone => Ok(Some(Step::Clone {
            from: words.wide(1),
            to: words.wide(2),
            lo: words.narrow(3),
            hi: words.narrow(4),
        })),
        Keyword::Call => Ok(Some(call(alloc, words)?)),
        Keyword::Kernel => Ok(Some(kernel(alloc, words)?)),
        Keyword::Read => Ok(Some(Step::Read {
            copy: words.wide(1),
            lo: words.narrow(2),
            hi: words.narrow(3),
        })),
        Keyword::Bind => Ok(Some(Step::Bind {
            container: words.narrow(1),
            store: words.wide(2),
        })),
        Keyword::Unbind => Ok(Some(Step::Unbind {
            container: words.narrow(1),
        })),
        Keyword::Flush => Ok(Some(Step::Flush)),
    }
}

/// A new store: its number, its type and its shape, if the sizes are those of one.
fn store(alloc: Global, words: &Words<'_>) -> Result<Option<Step>, Memory>
    ensures { IfOk result (λ step. step ≡ store_in words.now) }
{
    let store = words.wide(1);
    let ty = type_named(words.word(2));
    match shape(alloc, words.word(3))? {
        Some(shape) => Ok(Some(Step::Store { store, ty, shape })),
        None => Ok(None),
    }
}

/// The shape of sizes with `x` between them, if they are those of one.
fn shape(alloc: Global, word: &[u8]) -> Result<Option<Shape>, AllocError>
    ensures { IfOk result (λ shape. shape ≡ shape_in word.now) }
{
    let sizes = cells_between(alloc, b'x', 0, word)?;
    Ok(Shape::new(alloc, sizes.as_slice()))
}

/// Cells that are written.
fn write(alloc: Global, line: &[u8], words: &Words<'_>) -> Result<Step, Memory>
    ensures { IfOk result (λ step. step ≡ write_in line.now words.now) }
{
    let cells = cells_between(alloc, b' ', 3, line)?;
    Ok(Step::Write {
        copy: words.wide(1),
        lo: words.narrow(2),
        cells: Cells::new(alloc, cells)?,
    })
}

/// A call of an instance.
fn call(alloc: Global, words: &Words<'_>) -> Result<Step, Memory>
    ensures { IfOk result (λ step. step ≡ call_in words.now) }
{
    let operands = numbers(alloc, words.word(8))?;
    let uniforms = cells(alloc, words.word(9))?;
    let settings = settings(alloc, words.word(10))?;
    Ok(Step::Call {
        call: words.wide(1),
        line: words.narrow(2),
        instance: words.narrow(3),
        variant: variant_named(words.word(4)),
        parts: words.narrow(5),
        recorded: flag_named(words.word(6)),
        result: optional_wide(words.word(7)),
        operands,
        uniforms,
        settings,
    })
}

/// A kernel of a call.
fn kernel(alloc: Global, words: &Words<'_>) -> Result<Step, Memory>
    ensures { IfOk result (λ step. step ≡ kernel_line_in words.now) }
{
    let inputs = numbers(alloc, words.word(8))?;
    Ok(Step::Kernel {
        call: words.wide(1),
        kind: kernel_named(words.word(2)),
        part: words.narrow(3),
        lo: words.narrow(4),
        hi: words.narrow(5),
        out: words.wide(6),
        trapped: optional_narrow(words.word(7)),
        inputs,
    })
}

/// The numbers of a list with commas.
fn numbers(alloc: Global, word: &[u8]) -> Result<Numbers, Memory>
    ensures { IfOk result (λ numbers. numbers ≡ map wide_in (list_in word.now)) }
{
    Numbers::new(alloc, numbers_of(alloc, word)?)
}

/// The cells of a list with commas.
fn cells(alloc: Global, word: &[u8]) -> Result<Cells, Memory>
    ensures { IfOk result (λ cells. cells ≡ map cell_in (list_in word.now)) }
{
    Cells::new(alloc, cells_of(alloc, word)?)
}

/// The number of 64 bits that is there, unless the word is `-`.
fn optional_wide(word: &[u8]) -> Option<u64>
    ensures { result ≡ option_in wide_in word.now }
{
    if is_absent(word) {
        None
    } else {
        Some(wide(word))
    }
}

/// The number of 32 bits that is there, unless the word is `-`.
fn optional_narrow(word: &[u8]) -> Option<u32>
    ensures { result ≡ option_in narrow_in word.now }
{
    if is_absent(word) {
        None
    } else {
        Some(narrow(word))
    }
}

/// The cell that is there, unless the word is `-`.
fn optional_cell(word: &[u8]) -> Option<Cell>
    ensures { result ≡ option_in cell_in word.now }
{
    if is_absent(word) {
        None
    } else {
        Some(cell(word))
    }
}

/// The settings of words with colons between them.
fn settings(alloc: Global, word: &[u8]) -> Result<CallSettings, AllocError>
    ensures { IfOk result (λ settings. settings ≡ settings_in word.now) }
{
    let words = Words::between(alloc, b':', word)?;
    Ok(CallSettings {
        mode: mode_named(words.word(0)),
        overlap: (words.narrow(1), words.narrow(2)),
        edge: edge_named(words.word(3)),
        pad: words.cell(4),
        start: optional_cell(words.word(5)),
    })
}
