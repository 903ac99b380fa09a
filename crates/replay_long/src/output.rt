// The lines of a part of a trace, and those that end it, written to standard output.
use crate::failure::Failure;
use error::Refusal;
use machine::Machine;

// The machine after the part's records, whose lines are put into the text lent and written with one call.
pub(crate) fn write_part(
    rt: &impl Print,
    machine: Machine,
    first: u64,
    part: &[u8],
    text: &mut [u8],
) -> Result<Machine, Failure> {
    let put = transcript::put_part(machine, first, part, text, 0);
    write_text(rt, text, put.written)?;
    Ok(put.machine)
}

// The lines after the records': a short last record, then T and the last reading. It runs once, and beside the loop of
// parts it would slow the loop's records. `transcript::replay` ends a text with the same lines, but of a trace that it
// has whole: in one of any size, which part is the last is known only once it has been read.
#[cold]
pub(crate) fn write_end(rt: &impl Print, machine: Machine, left: usize) -> Result<(), Failure> {
    let mut text = [0u8; 64];
    if left != 0 {
        let written = lines::put_tail(&mut text, 0);
        write_text(rt, &text, written)?;
    }
    let (cycles, reading) = last_times(machine);
    let written = lines::put_end(&mut text, 0, cycles, reading);
    write_text(rt, &text, written)
}

// A machine that is not set up has no cycles and no reading to tell. As in transcript, which keeps its own to itself.
fn last_times(machine: Machine) -> (u64, u64) {
    if machine.ready {
        let timer = machine.timer;
        (timer.counter.cycles.0, timer.clock.last.0)
    } else {
        (0, 0)
    }
}

// The lines that were put at the text's front.
fn write_text(rt: &impl Print, text: &[u8], put: Result<usize, Refusal>) -> Result<(), Failure> {
    let length = put.map_err(|_| Failure::NoRoom)?;
    let lines = text.get(..length).ok_or(Failure::NoRoom)?;
    rt.write_all(lines).map_err(Failure::Write)
}
