// Writes the lines of a trace to standard output: of the file that the first argument names, else of standard input.
#![tactic(auto)]

mod input;
mod output;

use output::{complain, fail};
use std::env::FillError;
use std::fs::File;
use std::io::Read;
use std::process::ExitCode;
use std::rt::{Env, Runtime};

// Room for any path.
const NAME: usize = 4096;

// A failure is a line on standard error, of which ./tickclock makes a status. Of its own the program has one, 1, where
// something could not be opened, read or written.
fn main(rt: HostRuntime) -> ExitCode {
    if has_second_argument(&rt) {
        complain(&rt, "usage: replay [TRACE]");
        return ExitCode::SUCCESS;
    }
    let mut word = [0u8; NAME];
    match rt.arg(1, &mut word) {
        Ok(length) => replay_file(&rt, &word[..length]),
        Err(FillError::NotPresent) => replay_from(&rt, &mut rt.stdin(), "standard input"),
        Err(FillError::TooLong) => {
            complain(&rt, "first argument: File name too long");
            ExitCode::SUCCESS
        }
    }
}

// One that is too long to be told is there all the same.
fn has_second_argument(rt: &impl Env) -> bool {
    !matches!(rt.arg(2, &mut [0u8; NAME]), Err(FillError::NotPresent))
}

// std opens a file by a text, and a name may be any bytes. Each program opens its file for itself, for the reason given
// at `complain`.
fn replay_file(rt: &impl Runtime, name: &[u8]) -> ExitCode {
    let Ok(name) = std::str::from_utf8(name) else {
        complain(rt, "first argument: not UTF-8");
        return ExitCode::FAILURE;
    };
    match File::open(rt, name) {
        Ok(mut file) => replay_from(rt, &mut file, name),
        Err(error) => fail(rt, name, error),
    }
}

// Nothing is written before the whole trace has been read.
fn replay_from(rt: &impl Runtime, from: &mut impl Read, name: &str) -> ExitCode {
    let mut trace = [0u8; input::MOST];
    match input::read_trace(from, &mut trace) {
        Ok(length) => output::write_lines(rt, &trace[..length]),
        Err(error) => fail(rt, name, error),
    }
}
