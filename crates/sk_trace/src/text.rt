ghost use Rattle.std.specs.Prelude.{◌≡◌, ◌≢◌, ◌<◌, ◌+◌, ◌^◌, ◌==◌, ◌↔◌, All, IfErr, IfOk, IfSome, IsTrue, List, None, MatchResult, drop, length, position, take};
ghost use Rattle.sk_spaces.specs.declared.step.Step.{Step};
ghost use Rattle.sk_trace.specs.Fits.{IsStep};
ghost use Rattle.sk_trace.specs.Lines.{line_of};
ghost use Rattle.sk_trace.specs.Text.{IsTraceFault, written_of};
ghost use Rattle.sk_trace.specs.declared.fault.TraceFault.TheVariants as fault;

use crate::candidates::candidate;
use crate::fault::TraceFault;
use crate::lines::put_line;
use sk_spaces::{Memory, Step};
use std::alloc::Global;

/// The first line of a trace.
const FIRST_LINE: &[u8] = b"skepu-trace 1\n";

/// The text of a trace of these steps. Takes time and memory in proportion to the text.
pub fn write(alloc: Global, steps: &[Step]) -> Result<Vec<u8>, Memory>
    ensures { IfOk result (λ text. text.items ≡ written_of steps.now) }
{
    let mut text = Vec::new(alloc);
    text.extend_from_slice(FIRST_LINE)?;
    'steps: for step in steps {
        put_line(&mut text, step)?;
        text.push(b'\n')?;
    }
    Ok(text)
}

/// The steps of a trace, or the first line that has no reading. A trace that `write` gives is read as its steps.
///
/// Takes time in proportion to the bytes, and memory for the steps and for one line.
pub fn read(alloc: Global, bytes: &[u8]) -> Result<Vec<Step>, TraceFault>
    requires size { length bytes.now < 2 ^ 31 }
    ensures steps { IfOk result (λ steps. bytes.now ≡ written_of steps.items) }
    ensures fault { IfErr result (λ told. IsTraceFault bytes.now told) }
    ensures reads_back { (steps : List Step) → All IsStep steps → bytes.now ≡ written_of steps
        → MatchResult result (λ read. read.items ≡ steps) (λ told. told ≡ fault.Memory) }
{
    read_all(alloc, bytes)
}

/// Reads line by line.
fn read_all(alloc: Global, bytes: &[u8]) -> Result<Vec<Step>, TraceFault>
    requires size { length bytes.now < 2 ^ 31 }
    ensures steps { IfOk result (λ steps. bytes.now ≡ written_of steps.items) }
    ensures fit { IfOk result (λ steps. All IsStep steps.items) }
    ensures fault { IfErr result (λ told. IsTraceFault bytes.now told) }
{
    let Some(mut rest) = bytes.strip_prefix(FIRST_LINE) else {
        return Err(TraceFault::Line { number: 1 });
    };
    let mut steps = Vec::new(alloc);
    let mut own = Vec::new(alloc);
    'lines: while !rest.is_empty() {
        let number = steps.len() as u32 + 2;
        let Some(end) = line_end(rest) else {
            return Err(TraceFault::Line { number });
        };
        let Some(step) = step_with_line(alloc, line_before(rest, end), &mut own)? else {
            return Err(TraceFault::Line { number });
        };
        steps.push(step)?;
        rest = rest_behind(rest, end);
    }
    Ok(steps)
}

/// The place of the first line feed.
fn line_end(text: &[u8]) -> Option<usize>
    ensures { result ≡ position (λ byte. byte == 10) text.now }
{
    text.iter().position(|byte| *byte == b'\n')
}

/// What stands before this place.
fn line_before(text: &[u8], end: usize) -> &[u8]
    requires { end < length text.now }
    ensures { result.now ≡ take end text.now }
{
    &text[..end]
}

/// What stands behind this place.
fn rest_behind(text: &[u8], end: usize) -> &[u8]
    requires { end < length text.now }
    ensures { result.now ≡ drop (end + 1) text.now }
{
    &text[end + 1..]
}

/// Whether two texts are the same.
fn is_same(text: &[u8], other: &[u8]) -> bool
    ensures { IsTrue result ↔ (text.now ≡ other.now) }
{
    text == other
}

/// The step with this line, if there is one. `own` is room for a line: what it holds is lost.
fn step_with_line(alloc: Global, line: &[u8], own: &mut Vec<u8>) -> Result<Option<Step>, Memory>
    ensures step { IfOk result (λ found. IfSome found (λ step. (line.now ≡ line_of step) × IsStep step)) }
    ensures none { IfOk result (λ found. found ≡ None → (s : Step) → IsStep s → line.now ≢ line_of s) }
{
    let Some(step) = candidate(alloc, line)? else {
        return Ok(None);
    };
    own.clear();
    put_line(own, &step)?;
    if is_same(own.as_slice(), line) {
        Ok(Some(step))
    } else {
        Ok(None)
    }
}
