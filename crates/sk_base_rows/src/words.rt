//! The words of rows.
use sk_base::Range;
use std::alloc::Global;

/// What stands before the first of these characters, and what behind; all of it where there is none.
pub fn parted_at(text: &str, sign: char) -> (&str, &str) {
    text.split_once(sign).unwrap_or((text, ""))
}

/// Numbers with blanks between, where that is all.
pub fn numbers(alloc: Global, text: &str) -> Option<Vec<i64>> {
    let mut numbers = Vec::new(alloc);
    for word in text.split_whitespace() {
        numbers.push(word.parse().ok()?).ok()?;
    }
    Some(numbers)
}

/// The range with these two ends, if they are in order.
pub fn range_of(lo: &str, hi: &str) -> Option<Range> {
    let lo = lo.parse().ok()?;
    let hi = hi.parse().ok()?;
    if lo <= hi {
        Some(Range { lo, hi })
    } else {
        None
    }
}
