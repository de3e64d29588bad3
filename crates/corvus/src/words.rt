// Numbers, ranges and texts in words.
use crate::stop::Stop;
use itertools::Itertools;
use pile::runs::Run;
use scenario::numbers::number;
use std::alloc::{AllocError, Global};
use std::fmt;
use std::fmt::Write;

// A text in one line, whatever a word of the command line, a path or a field of a table has in it.
#[derive(Clone, Copy)]
pub(crate) struct OneLine<'a>(pub(crate) &'a str);

impl fmt::Display for OneLine<'_> {
    fn fmt<W: fmt::Write>(&self, f: &mut fmt::Formatter<W>) -> fmt::Result {
        for c in self.0.chars() {
            f.write_char(if c < ' ' { ' ' } else { c })?;
        }
        Ok(())
    }
}

// The number that a word of the command line or a field of a table says.
pub(crate) fn number_word(heap: Global, what: &str, word: &str) -> Result<u32, Stop> {
    number(word).ok_or_else(|| {
        Stop::said(format!(in heap; "{what}: '{word}' is no number (digits 0 to 9 alone)"))
    })
}

// Neighbours from the first to the last, both included. By its last, as it is printed: a Run of pile counts in a u32,
// and what adds to it asks that fewer stand there, which no command would prove.
#[derive(Clone, Copy)]
pub(crate) struct Stretch {
    pub(crate) first: u32,
    pub(crate) last: u32,
}

impl Stretch {
    fn count(self) -> u64 {
        u64::from(self.last.saturating_sub(self.first)).saturating_add(1)
    }
}

impl From<Run> for Stretch {
    fn from(run: Run) -> Stretch {
        Stretch {
            first: run.first,
            last: run.first.saturating_add(run.count).saturating_sub(1),
        }
    }
}

impl fmt::Display for Stretch {
    fn fmt<W: fmt::Write>(&self, f: &mut fmt::Formatter<W>) -> fmt::Result {
        let &Stretch { first, last } = self;
        if first == last {
            write!(f, "{first}")
        } else {
            write!(f, "{first}-{last}")
        }
    }
}

// Adds n behind the others: to the last stretch where it is the next, else as one of its own.
pub(crate) fn add_next(stretches: &mut Vec<Stretch>, n: u32) -> Result<(), AllocError> {
    match stretches.last_mut() {
        Some(s) if s.last.saturating_add(1) == n => s.last = n,
        _ => stretches.push(Stretch { first: n, last: n })?,
    }
    Ok(())
}

// How many blocks there are in all.
pub(crate) fn sum_of(stretches: &[Stretch]) -> u64 {
    stretches
        .iter()
        .fold(0, |sum, s| s.count().saturating_add(sum))
}

// A line for each, behind the indent.
pub(crate) fn add_lines(
    out: &mut String,
    indent: &str,
    stretches: &[Stretch],
) -> Result<(), AllocError> {
    for s in stretches {
        writeln!(out, "{indent}{s}")?;
    }
    Ok(())
}

// The first four in one line, and how many more there are.
pub(crate) fn runs_words(heap: Global, runs: &[Run]) -> Result<String, AllocError> {
    if runs.is_empty() {
        return String::from_str(heap, "none");
    }
    let words = runs
        .iter()
        .take(4)
        .map(|&run| Stretch::from(run))
        .join(heap, ", ")?;
    match runs.len().saturating_sub(4) {
        0 => Ok(words),
        more => format!(in heap; "{words} and {more} more"),
    }
}
