// Sixteen bytes of a trace: their fields, and the one record that they stand for.
#![tactic(auto)]

ghost use Rattle.std.specs.Prelude.{◌+◌, ◌≤◌, ◌≡◌, cond, length, Ok, Err};
ghost use Rattle.error.specs.declared.Refusal.TheVariants.{Invalid};
ghost use Rattle.trace.specs.Decode.{word_at, fields_at, decode_fields, decode_of};

use clock::Gaps;
use error::Refusal;

pub mod reader;

// A record's bytes as numbers in their order, before they are a record: the kind may be any byte, and p, q and r are gaps
// of some kinds alone. `spare` is the two bytes that are always 0.
#[derive(Clone, Copy)]
struct Fields {
    kind: u8,
    thread: u8,
    spare: u32,
    p: u32,
    q: u32,
    r: u32,
}

#[derive(Clone, Copy)]
pub struct Setup {
    pub period: u32,
    pub tick: u32,
}

#[derive(Clone, Copy)]
pub enum Record {
    Run(u32),
    Sample(Gaps),
    Announce,
    Start(u32, Gaps),
    Switch(u32, Gaps),
    Stop(Gaps),
    Enable(u32, Gaps),
    Disable(u32, Gaps),
    Report(u32),
    Setup(Setup),
}

// Four bytes, little-endian.
#[tactic(auto, unfolding(crate::specs::Decode::word_at))]
fn word_at(trace: &[u8], at: usize) -> u32
    requires { at + 4 ≤ length trace.now }
    ensures { result ≡ word_at trace.now at }
{
    u32::from_le_bytes([trace[at], trace[at + 1], trace[at + 2], trace[at + 3]])
}

#[tactic(auto, unfolding(crate::specs::Decode::fields_at))]
fn fields_at(trace: &[u8], at: usize) -> Fields
    requires { at + 16 ≤ length trace.now }
    ensures { result ≡ fields_at trace.now at }
{
    let kind = trace[at];
    let thread = trace[at + 1];
    let spare = u32::from_le_bytes([trace[at + 2], trace[at + 3], 0, 0]);
    let p = word_at(trace, at + 4);
    let q = word_at(trace, at + 8);
    let r = word_at(trace, at + 12);
    Fields {
        kind: kind,
        thread: thread,
        spare: spare,
        p: p,
        q: q,
        r: r,
    }
}

// The record that was made of the fields, unless they are bad.
fn accepted_unless(bad: bool, made: Record) -> Result<Record, Refusal>
    ensures { result ≡ cond bad (Err Invalid) (Ok made) }
{
    if bad {
        return Err(Refusal::Invalid);
    }
    Ok(made)
}

// By kind: what a kind does not use must be 0, and of what is used only a setup's period and tick are tested.
#[tactic(auto, unfolding(crate::specs::Decode::decode_fields, crate::specs::Decode::unused_set, crate::specs::Decode::samples_first, crate::specs::Decode::uses_thread, crate::specs::Decode::record_of))]
fn decode_fields(fields: Fields) -> Result<Record, Refusal>
    ensures { result ≡ decode_fields fields }
{
    let kind = fields.kind;
    let thread = fields.thread as u32;
    let gaps = Gaps {
        p: fields.p,
        q: fields.q,
        r: fields.r,
    };
    let thread_set = thread != 0;
    let p_set = fields.p != 0;
    let q_set = fields.q != 0;
    let r_set = fields.r != 0;
    if fields.spare != 0 {
        return Err(Refusal::Invalid);
    }
    match kind {
        0 => accepted_unless(thread_set | q_set | r_set, Record::Run(fields.p)),
        1 => accepted_unless(thread_set, Record::Sample(gaps)),
        2 => accepted_unless(thread_set | p_set | q_set | r_set, Record::Announce),
        3 => Ok(Record::Start(thread, gaps)),
        4 => Ok(Record::Switch(thread, gaps)),
        5 => accepted_unless(thread_set, Record::Stop(gaps)),
        6 => Ok(Record::Enable(thread, gaps)),
        7 => Ok(Record::Disable(thread, gaps)),
        8 => accepted_unless(p_set | q_set | r_set, Record::Report(thread)),
        9 => {
            let bad = clock::bad_setup(fields.p, fields.q);
            let setup = Setup {
                period: fields.p,
                tick: fields.q,
            };
            accepted_unless(thread_set | r_set | bad, Record::Setup(setup))
        }
        _ => Err(Refusal::Invalid),
    }
}

// The record at a place; where no sixteen bytes are left there is none.
#[tactic(auto, unfolding(crate::specs::Decode::decode_of))]
pub fn decode(trace: &[u8], at: usize) -> Result<Record, Refusal>
    ensures { result ≡ decode_of trace.now at }
{
    match trace.len().checked_sub(16) {
        Some(last) if at <= last => decode_fields(fields_at(trace, at)),
        _ => Err(Refusal::Invalid),
    }
}
