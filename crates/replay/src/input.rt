// A trace read into one array.
ghost use Rattle.replay.specs.Within.{ReadsWithin};

use std::io::{Read, Result};

// One byte more than a trace may have: what comes after it can't change the text.
pub const MOST: usize = transcript::MOST_BYTES + 1;

// How many bytes came before the input ended or the array was full. A read may bring less than there is room for, as
// from a pipe; only one that brings nothing is the end. std's own loops don't serve: read_exact does not tell how many
// bytes came before the end, and read_to_end fills a Vec, on the heap, where a trace is kept in fixed memory here, as
// all is in the firmware. replay_long has a loop of its own: a library can't hold one for both, since what a read
// brings leaves more than one outcome.
pub(crate) fn read_trace(from: &mut impl Read, trace: &mut [u8]) -> Result<usize>
    ensures { ReadsWithin trace.new result }
{
    let mut done = 0;
    while done < trace.len() {
        let more = from.read(&mut trace[done..])?;
        if more == 0 {
            break;
        }
        done += more;
    }
    Ok(done)
}
