// Replays a trace of any size from standard input, part by part, and writes its lines to standard output.
#![tactic(auto)]

mod failure;
mod input;
mod output;

use failure::Failure;
use std::io::Read;
use std::process::ExitCode;

// 64 gigabytes of trace: a program has to end.
const MOST_PARTS: u64 = 1000000;

// A part is as long as the longest trace of document 01, whose limit is a matter of `replay` alone.
const PART: usize = transcript::MOST_BYTES;

const PART_RECORDS: u64 = PART as u64 / 16;

fn main(rt: HostRuntime) -> ExitCode {
    match replay(&rt, &mut rt.stdin()) {
        Ok(()) => ExitCode::SUCCESS,
        Err(failure) => failure.tell(&rt),
    }
}

fn replay(rt: &impl Print, from: &mut impl Read) -> Result<(), Failure> {
    let mut part = [0u8; PART];
    let mut text = [0u8; transcript::MOST_ROOM];
    let mut machine = machine::fresh();
    for number in 0..MOST_PARTS {
        let size = input::read_part(from, &mut part).map_err(Failure::Read)?;
        let first = number * PART_RECORDS;
        machine = output::write_part(rt, machine, first, &part[..size], &mut text)?;
        if size < PART {
            return output::write_end(rt, machine, size % 16);
        }
    }
    Err(Failure::TooLong)
}
