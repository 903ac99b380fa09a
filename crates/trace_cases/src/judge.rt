// A case: its trace is made and replayed, and the text held to the case's lines.
use crate::build::{Trace, build};
use crate::hold::hold;
use crate::text::Lines;
use std::io::{Result, Write};

#[derive(Clone, Copy)]
pub enum Verdict {
    Agrees,
    Differs,
    Unreadable,
}

// The case whose lines begin here. What comes of it is told at once. Trace and text are lent, since a function pays for
// large arrays of its own at each call.
#[tactic(auto, unfolding(error::specs::Said::number_in))]
pub(crate) fn judge(
    out: &mut impl Write,
    lines: Lines<'_>,
    trace: &mut Trace,
    text: &mut [u8; transcript::MOST_ROOM],
) -> Result<Verdict> {
    if let Err(unreadable) = build(lines, trace) {
        writeln!(out, ": {unreadable}")?;
        return Ok(Verdict::Unreadable);
    }
    let end = transcript::replay(trace.as_slice(), text).unwrap_or(0);
    match hold(lines, &text[..end]) {
        Ok(()) => {
            out.write_all(b": agrees\n")?;
            Ok(Verdict::Agrees)
        }
        Err(line) => {
            let number = line.number;
            write!(out, ": differs, line {number} of its text is `")?;
            out.write_all(line.text)?;
            out.write_all(b"`\n")?;
            Ok(Verdict::Differs)
        }
    }
}
