// What keeps a trace from being replayed to its end, and how standard error and the status say so.
use std::io::Error;
use std::process::ExitCode;

#[derive(Clone, Copy)]
pub enum Failure {
    // Of standard input.
    Read(Error),
    // Of standard output.
    Write(Error),
    NoRoom,
    TooLong,
}

impl Failure {
    // A failure is a line on standard error, of which ./tickclock makes a status. Of its own the program has one, 1,
    // where something could not be read or written, or the lines of a part not be made.
    pub(crate) fn tell(self, rt: &(impl Eprint + Alloc)) -> ExitCode {
        match self {
            Failure::Read(error) => fail(rt, "standard input", error),
            Failure::Write(error) => fail(rt, "standard output", error),
            Failure::NoRoom => complain(rt, "the lines do not fit"),
            Failure::TooLong => {
                complain(rt, "more parts than this program replays");
                return ExitCode::SUCCESS;
            }
        }
        ExitCode::FAILURE
    }
}

// A line on standard error. Each program says it for itself: a library's public function has a contract that leaves one
// outcome, and no contract says what standard error does.
fn complain(rt: &impl Eprint, line: &str) {
    // Where standard error takes nothing, there is nobody left to tell.
    let _ = rt.eprintln(line);
}

// What failed, and the system's words for it.
fn fail(rt: &(impl Eprint + Alloc), what: &str, error: Error) {
    match format!(in rt.alloc(); "{what}: {error}") {
        Ok(line) => complain(rt, without_number(line.as_str())),
        Err(_) => complain(rt, what),
    }
}

// std ends an error of the system with its number in brackets, and has no call that gives the words alone.
// Each program has these six lines: from a library they would need a contract, of a text that std may word otherwise.
fn without_number(line: &str) -> &str {
    match line.rsplit_once(" (os error ") {
        Some((words, _)) => words,
        None => line,
    }
}
