// A reader that holds the lent trace bytes and its place in them, and hands out the records one by one.
ghost use Rattle.std.specs.Prelude.{◌≡◌};
ghost use Rattle.trace.specs.Handing.{records_left, bytes_left, item_at, place_after};

use crate::Record;
use error::Refusal;

#[derive(Clone, Copy)]
pub struct TraceReader<'a> {
    pub trace: &'a [u8],
    pub at: usize,
}

// Bytes and place are lent apart here, since document 01 asks for a decoder over a slice and a place, and a statement
// speaks of each (`TermsGiven`). `TraceReader` holds both; it is no `Iterator`, since it hands itself on by value, as
// its statement has it (`ReaderEnsures`).

// How many whole records there are from a place on; past the trace there is none.
#[tactic(auto, unfolding(crate::specs::Handing::records_left))]
pub fn records_from(trace: &[u8], at: usize) -> usize
    ensures { result ≡ records_left trace.now at }
{
    trace.len().saturating_sub(at) / 16
}

// How many bytes of a short record are left after them.
#[tactic(auto, unfolding(crate::specs::Handing::bytes_left))]
pub fn bytes_from(trace: &[u8], at: usize) -> usize
    ensures { result ≡ bytes_left trace.now at }
{
    trace.len().saturating_sub(at) % 16
}

// What stands at a place: sixteen bytes, a record or refused; or nothing, where fewer are left.
#[tactic(auto, unfolding(crate::specs::Handing::item_at))]
pub fn item_at(trace: &[u8], at: usize) -> Option<Result<Record, Refusal>>
    ensures { result ≡ item_at trace.now at }
{
    if records_from(trace, at) == 0 {
        return None;
    }
    Some(crate::decode(trace, at))
}

// The place after the record at a place; at the end it stays.
#[tactic(auto, unfolding(crate::specs::Handing::place_after, crate::specs::Handing::records_left))]
pub fn place_after(trace: &[u8], at: usize) -> usize
    ensures { result ≡ place_after trace.now at }
{
    if records_from(trace, at) == 0 {
        return at;
    }
    at + 16
}

impl<'a> TraceReader<'a> {
    pub fn new(trace: &'a [u8]) -> TraceReader<'a>
        ensures { (result.trace ≡ trace.entry) × (result.at ≡ 0) }
    {
        TraceReader { trace, at: 0 }
    }

    // The item at the reader's place; `moved` is the reader after it.
    #[tactic(auto, unfolding(crate::specs::Handing::item_at))]
    pub fn next(self) -> Option<Result<Record, Refusal>>
        ensures { result ≡ item_at self.entry.trace.now self.entry.at }
    {
        item_at(self.trace, self.at)
    }

    #[tactic(auto, unfolding(crate::specs::Handing::place_after))]
    pub fn moved(self) -> TraceReader<'a>
        ensures { (result.trace ≡ self.entry.trace) × (result.at ≡ place_after self.entry.trace.now self.entry.at) }
    {
        let at = place_after(self.trace, self.at);
        TraceReader {
            trace: self.trace,
            at,
        }
    }

    #[tactic(auto, unfolding(crate::specs::Handing::records_left))]
    pub fn records_left(self) -> usize
        ensures { result ≡ records_left self.entry.trace.now self.entry.at }
    {
        records_from(self.trace, self.at)
    }

    #[tactic(auto, unfolding(crate::specs::Handing::bytes_left))]
    pub fn bytes_left(self) -> usize
        ensures { result ≡ bytes_left self.entry.trace.now self.entry.at }
    {
        bytes_from(self.trace, self.at)
    }
}

// A trace's first item, by a reader of its own.
#[tactic(auto, unfolding(crate::specs::Handing::item_at))]
pub fn first_item(trace: &[u8]) -> Option<Result<Record, Refusal>>
    ensures { result ≡ item_at trace.now 0 }
{
    TraceReader::new(trace).next()
}
