// A part of the trace, read into one array.
ghost use Rattle.std.specs.Prelude.{◌≤◌, IfOk, length};

use std::io::{Read, Result};

// How many bytes came before the input ended or the array was full. std's own loops don't serve: read_exact does not
// tell how many bytes came before the end, and read_to_end fills a Vec, on the heap, where a part is kept in fixed
// memory here, as all is in the firmware.
pub(crate) fn read_part(from: &mut impl Read, part: &mut [u8]) -> Result<usize>
    ensures { IfOk result (λ n. n ≤ length part.new) }
{
    let mut done = 0;
    while done < part.len() {
        let more = from.read(&mut part[done..]).unwrap_or(0);
        if more == 0 {
            // The input has ended or the read has failed. The read after it tells which.
            from.read(&mut [0u8; 1])?;
            break;
        }
        done += more;
    }
    Ok(done)
}
