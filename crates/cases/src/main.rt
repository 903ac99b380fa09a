// Holds the leaves to a list of upstream's answers, in the file that the first argument names, else on standard input.
#![tactic(auto)]

mod compare;
mod functions;
mod line;
mod reading;
mod tally;

use reading::Reading;
use std::env::FillError;
use std::fs::File;
use std::io::{Error, Read, Write};
use std::process::ExitCode;
use std::rt::{Env, Runtime};

// Room for any path.
const NAME: usize = 4096;

// How much of the list one read asks for.
const PIECE: usize = 65536;

// What keeps a list from being held to its end.
#[derive(Clone, Copy)]
enum Failure {
    Read(Error),
    // Of standard output.
    Write(Error),
    NoEnd,
}

// A failure is a line on standard error; the status is 1 where something could not be opened, read or written.
fn main(rt: HostRuntime) -> ExitCode {
    let mut word = [0u8; NAME];
    match rt.arg(1, &mut word) {
        Ok(length) => run_file(&rt, &word[..length]),
        Err(FillError::NotPresent) => run(&rt, &mut rt.stdin(), "standard input"),
        Err(FillError::TooLong) => {
            complain(&rt, "first argument: File name too long");
            ExitCode::SUCCESS
        }
    }
}

// std opens a file by a text, and a name may be any bytes. Each program opens its file for itself, for the reason given
// at `complain`.
fn run_file(rt: &impl Runtime, name: &[u8]) -> ExitCode {
    let Ok(name) = std::str::from_utf8(name) else {
        complain(rt, "first argument: not UTF-8");
        return ExitCode::FAILURE;
    };
    match File::open(rt, name) {
        Ok(mut file) => run(rt, &mut file, name),
        Err(error) => fail(rt, name, error),
    }
}

fn run(rt: &impl Runtime, from: &mut impl Read, name: &str) -> ExitCode {
    match hold(from, &mut std::io::writer(rt)) {
        Ok(()) => ExitCode::SUCCESS,
        Err(Failure::Read(error)) => fail(rt, name, error),
        Err(Failure::Write(error)) => fail(rt, "standard output", error),
        Err(Failure::NoEnd) => ExitCode::FAILURE,
    }
}

// A list that could not be read to its end gets no last line. Nothing promises that an input ends, so the turns run out
// too, after more of them than any run takes.
fn hold(from: &mut impl Read, out: &mut impl Write) -> Result<(), Failure> {
    let mut reading = Reading::new();
    let mut piece = [0u8; PIECE];
    for _ in 0..u64::MAX {
        let size = from.read(&mut piece).map_err(Failure::Read)?;
        if size == 0 {
            return reading.end(out).map_err(Failure::Write);
        }
        reading.take(out, &piece[..size]).map_err(Failure::Write)?;
    }
    Err(Failure::NoEnd)
}

// A line on standard error. Each program says it for itself: a library's public function has a contract that leaves one
// outcome, and no contract says what standard error does.
fn complain(rt: &impl Eprint, line: &str) {
    // Where standard error takes nothing, there is nobody left to tell.
    let _ = rt.eprintln(line);
}

// What failed, and the system's words for it. The status is 1.
fn fail(rt: &(impl Eprint + Alloc), what: &str, error: Error) -> ExitCode {
    match format!(in rt.alloc(); "{what}: {error}") {
        Ok(line) => complain(rt, without_number(line.as_str())),
        Err(_) => complain(rt, what),
    }
    ExitCode::FAILURE
}

// std ends an error of the system with its number in brackets, and has no call that gives the words alone.
// Each program has these six lines: from a library they would need a contract, of a text that std may word otherwise.
fn without_number(line: &str) -> &str {
    match line.rsplit_once(" (os error ") {
        Some((words, _)) => words,
        None => line,
    }
}
