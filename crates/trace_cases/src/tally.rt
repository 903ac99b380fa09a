// The cases of a list, one after another, and how many agreed.
use crate::build::Trace;
use crate::judge::{Verdict, judge};
use crate::text::Lines;
use std::fmt;
use std::io::{Result, Write};

#[derive(Clone, Copy, Default)]
pub struct Tally {
    traces: u64,
    differ: u64,
    unreadable: u64,
}

impl Tally {
    fn add(&mut self, verdict: Verdict) {
        self.traces = self.traces.saturating_add(1);
        match verdict {
            Verdict::Agrees => {}
            Verdict::Differs => self.differ = self.differ.saturating_add(1),
            Verdict::Unreadable => self.unreadable = self.unreadable.saturating_add(1),
        }
    }
}

impl fmt::Display for Tally {
    fn fmt<W: fmt::Write>(&self, f: &mut fmt::Formatter<W>) -> fmt::Result {
        let Tally {
            traces,
            differ,
            unreadable,
        } = *self;
        write!(f, "{traces} traces, {differ} differ")?;
        if unreadable > 0 {
            write!(f, ", {unreadable} unreadable")?;
        }
        Ok(())
    }
}

// What stands before the first case is its heading and is not looked at. A case's first line is its name, which is told
// before what its lines give.
pub(crate) fn run(out: &mut impl Write, list: &[u8]) -> Result<Tally> {
    let mut tally = Tally::default();
    let mut lines = Lines::of(list);
    let mut trace = Trace::new();
    let mut text = [0u8; transcript::MOST_ROOM];
    // No `for`, which would keep the iterator to itself: a case is handed it as it stands, behind the case's name.
    while let Some(line) = lines.next() {
        if line.begins_case() {
            out.write_all(line.text)?;
            tally.add(judge(out, lines, &mut trace, &mut text)?);
        }
    }
    Ok(tally)
}
