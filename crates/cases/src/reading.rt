// The bytes of the list, taken in order: each line that ends is compared and counted.
use crate::functions::FUNCTIONS;
use crate::line::Line;
use crate::tally::{Tally, Verdict};
use std::io::{Result, Write};

#[derive(Drop)]
pub struct Reading {
    // The number from 1 of the line that has not ended, and what has come of it.
    at: u64,
    line: Line,
    // The lines that have ended.
    tally: Tally,
}

impl Reading {
    pub(crate) fn new() -> Self {
        Self {
            at: 1,
            line: Line::new(),
            tally: Tally::default(),
        }
    }

    pub(crate) fn take(&mut self, out: &mut impl Write, bytes: &[u8]) -> Result<()> {
        for &byte in bytes {
            if byte == b'\n' {
                self.end_line(out)?;
            } else {
                self.line.push(byte);
            }
        }
        Ok(())
    }

    // The last line may lack its line feed, so the end of the list ends a line too.
    pub(crate) fn end(&mut self, out: &mut impl Write) -> Result<()> {
        self.end_line(out)?;
        self.tally.say(out)
    }

    fn end_line(&mut self, out: &mut impl Write) -> Result<()> {
        self.line.end();
        if let Some(verdict) = verdict(&self.line) {
            self.tally.count(out, verdict, self.at)?;
        }
        self.line = Line::new();
        self.at = self.at.saturating_add(1);
        Ok(())
    }
}

// None of a comment or an empty line, which are no rows.
fn verdict(line: &Line) -> Option<Verdict> {
    match line {
        Line::Row(row) if row.numbers().is_empty() => None,
        Line::Row(row) => Some(judged(row.numbers()).unwrap_or(Verdict::Unreadable)),
        Line::Comment => None,
        Line::Unreadable => Some(Verdict::Unreadable),
    }
}

fn judged(row: &[u64]) -> Option<Verdict> {
    let (number, columns) = row.split_first()?;
    let (place, function) = FUNCTIONS
        .iter()
        .enumerate()
        .find(|(_, function)| function.number == *number)?;
    if (function.compare)(columns)? {
        Some(Verdict::Agrees(place))
    } else {
        Some(Verdict::Differs)
    }
}
