// What went wrong, on standard error.
use std::io::Error;

// A line on standard error. Each program says it for itself: a library's public function has a contract that leaves one
// outcome, and no contract says what standard error does.
fn complain(rt: &impl Eprint, line: &str) {
    // Where standard error takes nothing, there is nobody left to tell.
    let _ = rt.eprintln(line);
}

// What failed, and the system's words for it.
pub(crate) fn fail(rt: &(impl Eprint + Alloc), what: &str, error: Error) {
    match format!(in rt.alloc(); "{what}: {error}") {
        Ok(line) => complain(rt, without_number(line.as_str())),
        Err(_) => complain(rt, what),
    }
}

// std ends an error of the system with its number in brackets, and has no call that gives the words alone.
// Each program has these six lines: from a library they would need a contract, of a text that std may word otherwise.
fn without_number(line: &str) -> &str {
    match line.rsplit_once(" (os error ") {
        Some((words, _)) => words,
        None => line,
    }
}
