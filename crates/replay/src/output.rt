// The lines of a trace, written to standard output, and what went wrong, to standard error.
use std::io::Error;
use std::process::ExitCode;

// Room for the lines of any trace is lent, and all of them fit.
#[tactic(auto, unfolding(error::specs::Said::number_in))]
pub(crate) fn write_lines(rt: &(impl Print + Eprint + Alloc), trace: &[u8]) -> ExitCode {
    let mut text = [0u8; transcript::MOST_ROOM];
    let Ok(length) = transcript::replay(trace, &mut text) else {
        complain(rt, "the lines do not fit");
        return ExitCode::SUCCESS;
    };
    match rt.write_all(&text[..length]) {
        Ok(()) => ExitCode::SUCCESS,
        Err(error) => fail(rt, "standard output", error),
    }
}

// A line on standard error. Each program says it for itself: a library's public function has a contract that leaves one
// outcome, and no contract says what standard error does.
pub(crate) fn complain(rt: &impl Eprint, line: &str) {
    // Where standard error takes nothing, there is nobody left to tell.
    let _ = rt.eprintln(line);
}

// What failed, and the system's words for it. The status is 1.
pub(crate) fn fail(rt: &(impl Eprint + Alloc), what: &str, error: Error) -> ExitCode {
    match format!(in rt.alloc(); "{what}: {error}") {
        Ok(line) => complain(rt, without_number(line.as_str())),
        Err(_) => complain(rt, what),
    }
    ExitCode::FAILURE
}

// std ends an error of the system with its number in brackets, and has no call that gives the words alone.
// Each program has these six lines: from a library they would need a contract, of a text that std may word otherwise.
fn without_number(line: &str) -> &str {
    match line.rsplit_once(" (os error ") {
        Some((words, _)) => words,
        None => line,
    }
}
