// A trace's text: a line for each record, from any machine and number, and the lines that end it.
#![tactic(auto)]

ghost use Rattle.std.specs.Prelude.{◌≡◌, cond, Ok, ◌+◌, ◌*◌, ◌≤◌, length, ltb};
ghost use Rattle.machine.specs.Step.{fresh_machine};
ghost use Rattle.lines.specs.Says.{written_says};
ghost use Rattle.lines.specs.Buffer.{line_room, rest_room};
ghost use Rattle.lines.specs.Writing.{Put};
ghost use Rattle.transcript.specs.Room.{Labelled, HasRoom, Replays, Fits, rest_of};
ghost use Rattle.transcript.specs.Replay.{last_text, text_from};
ghost use Rattle.transcript.specs.Buffer.{part_refused, part_of, part_buffer, last_room, room_for, replay_of, replayed_of};

use clock::{Clock, Timer};
use counter::Counter;
use error::Refusal;
use lines::label::{Label, put_label};
use lines::{LINE_ROOM, put_end, put_input, put_refusal, put_tail, put_values};
use machine::Machine;
use table::changes::change_at;
use table::{Core, Reason, Values, malformed};
use usage::ThreadUsage;

// The most bytes that a trace may have.
pub const MOST_BYTES: usize = 64000;

// The longest lines after the last record's, and the line that turns a trace away.
const LAST_ROOM: usize = 55;

const INPUT_ROOM: usize = 10;

// Room for the text of any trace.
pub const MOST_ROOM: usize = MOST_BYTES / 16 * LINE_ROOM + LAST_ROOM;

#[derive(Clone, Copy)]
pub struct Part {
    pub written: Result<usize, Refusal>,
    pub machine: Machine,
}

#[derive(Clone, Copy)]
struct Replayed {
    pub end: usize,
    pub machine: Machine,
}

// A record's line, in two parts: its number, and what follows. Room was asked for before the first one, so that each is
// written.
fn put_line_number(out: &mut [u8], at: usize, label: Label) -> usize
    requires { at + line_room ≤ length out.old }
    ensures { Labelled out.old out.new at result label }
{
    put_label(out, at, label).unwrap_or(0)
}

// Many records are runs, which have nothing to tell. Their two zeros are written as constants: with `put_values` alone
// a record of a long trace takes 204 instructions and not 193.
fn put_told(out: &mut [u8], at: usize, told: Values) -> usize
    requires { at + rest_room ≤ length out.old }
    ensures text { Put out.old out.new at result (rest_of (Ok told)) }
    ensures room { result ≤ at + rest_room }
{
    if told.x == 0 && told.y == 0 {
        return put_values(out, at, 0, 0).unwrap_or(0);
    }
    put_values(out, at, told.x, told.y).unwrap_or(0)
}

fn put_outcome(out: &mut [u8], at: usize, outcome: Result<Values, Reason>) -> usize
    requires { at + rest_room ≤ length out.old }
    ensures text { Put out.old out.new at result (rest_of outcome) }
    ensures room { result ≤ at + rest_room }
{
    match outcome {
        Ok(told) => put_told(out, at, told),
        Err(why) => put_refusal(out, at, why.refusal().number()).unwrap_or(0),
    }
}

// The same core, built field by field. A copy of a whole struct takes along the unused bytes between its fields, which
// would then go through memory from record to record: with `core` itself at both places below a record of a long trace
// takes 234 instructions and not 193. Since only this reads the core, `machine::make` can set a timer or a core whole.
fn core_afresh(core: Core) -> Core
    ensures { result ≡ core }
{
    let Core {
        ready,
        timer: Timer { counter, clock },
        books,
    } = core;
    Core {
        ready,
        timer: Timer {
            counter: Counter { ..counter },
            clock: Clock { ..clock },
        },
        books,
    }
}

// The lines of so many records. The state stays in place: each record writes only the parts of it that are new. Whether
// it is malformed is asked once, since no record makes it so.
fn put_records(
    machine: Machine,
    first: u64,
    count: usize,
    trace: &[u8],
    out: &mut [u8],
    at: usize,
) -> Replayed
    requires { HasRoom first count out.old at }
    ensures { Replays machine first count trace.now out.old out.new at result }
{
    let mut core = machine.core();
    let mut threads = machine.ledger.threads;
    let broken = malformed(core, ThreadUsage::SLOTS);
    let mut label = Label::of(first);
    let mut end = at;
    // By place and not by chunks of the trace: `change_at` takes bytes and a place, as 01's decoder does.
    for k in 0..count {
        let second = put_line_number(out, end, label);
        label = label.next();
        let change = change_at(broken, core_afresh(core), ThreadUsage::SLOTS, trace, 16 * k);
        let outcome = machine::make(&mut core, &mut threads, change);
        end = put_outcome(out, second, outcome);
    }
    Replayed {
        end,
        machine: Machine::of(core_afresh(core), threads),
    }
}

// The lines of a part of a trace, from any machine and record number on, so that a trace of any size can be replayed
// part by part. Bytes after the last whole record are not looked at.
#[tactic(auto, unfolding(crate::specs::Buffer::part_of, crate::specs::Buffer::part_buffer))]
pub fn put_part(machine: Machine, first: u64, trace: &[u8], out: &mut [u8], at: usize) -> Part
    ensures answer { result ≡ part_of machine first trace.now out.old at }
    ensures buffer { out.new ≡ part_buffer machine first trace.now out.old at }
{
    let count = trace.len() / 16;
    if first.checked_add(count as u64).is_none() {
        return turned_away(machine, Refusal::Overflow);
    }
    if lacks_lines(out.len(), at, count) {
        return turned_away(machine, Refusal::NoSpace);
    }
    let Replayed { end, machine } = put_records(machine, first, count, trace, out, at);
    Part {
        written: Ok(end),
        machine,
    }
}

fn turned_away(machine: Machine, why: Refusal) -> Part
    ensures { result ≡ part_refused machine why }
{
    Part {
        written: Err(why),
        machine,
    }
}

// By what is left after `at`: a product or a sum could be too large for a usize.
fn lacks_lines(length: usize, at: usize, count: usize) -> bool
    ensures { result ≡ ltb length (at + count * line_room) }
{
    match length.checked_sub(at) {
        Some(left) => left / LINE_ROOM < count,
        None => true,
    }
}

// The lines after the records'. A trace whose last record is short has bytes left over.
#[tactic(auto, using(crate::proofs::Texts::end_next, crate::proofs::Texts::end_bytes, crate::proofs::Texts::end_within, crate::proofs::Texts::both_next, crate::proofs::Texts::both_bytes, crate::proofs::Texts::both_within))]
fn put_last(out: &mut [u8], at: usize, left: usize, cycles: u64, reading: u64) -> usize
    requires { at + last_room ≤ length out.old }
    ensures text { Put out.old out.new at result (last_text left cycles reading) }
    ensures room { result ≤ at + last_room }
{
    if left == 0 {
        return put_end(out, at, cycles, reading).unwrap_or(0);
    }
    let second = put_tail(out, at).unwrap_or(0);
    put_end(out, second, cycles, reading).unwrap_or(0)
}

// Room enough for the text of any trace of so many bytes.
#[tactic(auto, unfolding(crate::specs::Buffer::room_for))]
pub fn room_for(bytes: usize) -> usize
    ensures { result ≡ room_for bytes }
{
    if MOST_BYTES < bytes {
        return INPUT_ROOM;
    }
    let count = bytes / 16;
    count * LINE_ROOM + LAST_ROOM
}

// A machine that is not set up has no cycles and no reading to tell.
fn if_ready(ready: bool, number: u64) -> u64
    ensures { result ≡ cond ready number 0 }
{
    if ready { number } else { 0 }
}

#[tactic(auto, unfolding(crate::specs::Replay::text_from))]
fn put_whole(trace: &[u8], out: &mut [u8]) -> usize
    requires { Fits trace.now out.old }
    ensures text { Put out.old out.new 0 result (text_from (fresh_machine ThreadUsage.SLOTS) trace.now) }
    ensures room { result ≤ length out.new }
{
    let size = trace.len();
    let count = size / 16;
    let left = size % 16;
    let Replayed { end, machine } = put_records(machine::fresh(), 0, count, trace, out, 0);
    let cycles = if_ready(machine.ready, machine.timer.counter.cycles.0);
    let reading = if_ready(machine.ready, machine.timer.clock.last.0);
    put_last(out, end, left, cycles, reading)
}

// The whole text of a trace, from the buffer's first byte on. Room is asked for the longest text that so many bytes can
// have, so that nothing is written where it may not suffice.
#[tactic(auto, using(crate::proofs::Texts::large_answer, crate::proofs::Texts::large_buffer, crate::proofs::Texts::within, crate::proofs::Texts::asked, crate::proofs::Texts::whole_answer, crate::proofs::Texts::whole_buffer), unfolding(error::specs::Said::number_in, crate::specs::Buffer::replay_of, crate::specs::Buffer::replayed_of))]
pub fn replay(trace: &[u8], out: &mut [u8]) -> Result<usize, Refusal>
    ensures answer { result ≡ replay_of ThreadUsage.SLOTS trace.now out.old }
    ensures buffer { out.new ≡ replayed_of ThreadUsage.SLOTS trace.now out.old }
    ensures room { (written_says result).value ≤ length out.new }
{
    let size = trace.len();
    if MOST_BYTES < size {
        return put_input(out, 0);
    }
    let needed = room_for(size);
    if out.len() < needed {
        return Err(Refusal::NoSpace);
    }
    Ok(put_whole(trace, out))
}
