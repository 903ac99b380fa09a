// Replays the traces of the list on standard input, and says of each whether its text is the one that the list has.
#![tactic(auto)]

ghost use Rattle.std.specs.Prelude.{◌≤◌, IfOk, length};

mod build;
mod hold;
mod judge;
mod record;
mod say;
mod step;
mod tally;
mod text;

use std::io::{Read, Result, Write};
use std::process::ExitCode;

// The most bytes that a list may have.
const MOST: usize = 65536;

// A list that could not be read to its end gets no last line. A failure is a line on standard error, and a status of 1.
fn main(rt: HostRuntime) -> ExitCode {
    // One byte more than a list may have is enough to tell that it has too many.
    let mut list = [0u8; MOST + 1];
    let length = match read_list(&mut rt.stdin(), &mut list) {
        Ok(length) => length,
        Err(error) => {
            say::fail(&rt, "standard input", error);
            return ExitCode::FAILURE;
        }
    };
    match run_list(&rt, &list[..length]) {
        Ok(()) => ExitCode::SUCCESS,
        Err(error) => {
            say::fail(&rt, "standard output", error);
            ExitCode::FAILURE
        }
    }
}

// How many bytes came before the input ended or the array was full. A loop as replay has it: std's read_exact does not
// tell how many bytes came before the end, and read_to_end fills a Vec, on the heap, which needs memory beside the stack.
fn read_list(from: &mut impl Read, list: &mut [u8]) -> Result<usize>
    ensures { IfOk result (λ n. n ≤ length list.new) }
{
    let mut done = 0;
    while done < list.len() {
        let more = from.read(&mut list[done..])?;
        if more == 0 {
            break;
        }
        done += more;
    }
    Ok(done)
}

fn run_list(rt: &impl Print, list: &[u8]) -> Result<()> {
    let mut out = std::io::writer(rt);
    if MOST < list.len() {
        return out.write_all(b"the list is too long\n");
    }
    let tally = tally::run(&mut out, list)?;
    writeln!(out, "{tally}")
}
