// How many rows agreed, differed or could not be read, and the lines that say so.
use crate::functions::FUNCTIONS;
use std::io::{Result, Write};

// What has come of a row.
#[derive(Clone, Copy)]
pub enum Verdict {
    // By its function's place among them all.
    Agrees(usize),
    Differs,
    // No function, the wrong number of columns, or a column that its type can't hold.
    Unreadable,
}

#[derive(Clone, Copy, Default)]
pub struct Tally {
    // The lines that could be read as rows.
    rows: u64,
    differ: u64,
    unreadable: u64,
    agreed: [u64; FUNCTIONS.len()],
}

impl Tally {
    // Counts a line's verdict. One that is not agreement is told at once.
    pub(crate) fn count(
        &mut self,
        out: &mut impl Write,
        verdict: Verdict,
        line: u64,
    ) -> Result<()> {
        match verdict {
            Verdict::Agrees(place) => {
                add_one(&mut self.rows);
                if let Some(agreed) = self.agreed.get_mut(place) {
                    add_one(agreed);
                }
            }
            Verdict::Differs => {
                writeln!(out, "line {line} differs")?;
                add_one(&mut self.rows);
                add_one(&mut self.differ);
            }
            Verdict::Unreadable => {
                writeln!(out, "line {line} unreadable")?;
                add_one(&mut self.unreadable);
            }
        }
        Ok(())
    }

    // A line for each function, and the last line.
    pub(crate) fn say(&self, out: &mut impl Write) -> Result<()> {
        for (function, agreed) in FUNCTIONS.iter().zip(self.agreed.iter()) {
            writeln!(out, "{} {agreed} agree", function.name)?;
        }
        write!(out, "{} rows, {} differ", self.rows, self.differ)?;
        if self.unreadable > 0 {
            write!(out, ", {} unreadable", self.unreadable)?;
        }
        writeln!(out)
    }
}

fn add_one(count: &mut u64) {
    *count = count.saturating_add(1);
}
