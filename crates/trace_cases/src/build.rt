// The trace of a case, made from its lines.
use crate::record;
use crate::step::{Step, Unreadable};
use crate::text::Lines;
use arrayvec::ArrayVec;

// One byte more than a trace may have.
const MOST: usize = transcript::MOST_BYTES + 1;

// A trace that is full stays as it is: that it is longer than it may be shows in its text.
#[derive(Drop)]
pub struct Trace(ArrayVec<u8, MOST>);

impl Trace {
    pub(crate) fn new() -> Self {
        Trace(ArrayVec::new())
    }

    pub(crate) fn clear(&mut self) {
        self.0.clear();
    }

    // What there is room for.
    fn add(&mut self, bytes: &[u8]) {
        let fitting = bytes.get(..self.0.remaining_capacity()).unwrap_or(bytes);
        let _ = self.0.try_extend_from_slice(fitting);
    }

    // The last records, so many times more; None where the trace has fewer.
    fn repeat(&mut self, records: u16, times: u16) -> Option<()> {
        let size = usize::from(records) * record::SIZE;
        let start = self.0.len().checked_sub(size)?;
        for _ in 0..times {
            for record in 0..usize::from(records) {
                if self.0.is_full() {
                    return Some(());
                }
                self.add_again(start.checked_add(record * record::SIZE)?)?;
            }
        }
        Some(())
    }

    // The record at a place. It goes by way of an array of its own, since a trace can't lend a part of itself to grow by.
    fn add_again(&mut self, at: usize) -> Option<()> {
        let (_, rest) = self.0.as_slice().split_at_checked(at)?;
        let (record, _) = rest.split_at_checked(record::SIZE)?;
        let mut again = [0u8; record::SIZE];
        again.copy_from_slice(record);
        self.add(&again);
        Some(())
    }

    pub(crate) fn as_slice(&self) -> &[u8] {
        self.0.as_slice()
    }
}

// The lines from the first on, to the next case.
pub(crate) fn build(lines: Lines<'_>, trace: &mut Trace) -> Result<(), Unreadable> {
    trace.clear();
    for line in lines.take_while(|line| !line.begins_case()) {
        match line.step()? {
            None => {}
            Some(Step::Record(record)) => trace.add(&record.bytes()),
            Some(Step::Bytes(bytes)) => trace.add(bytes.as_slice()),
            Some(Step::Again { records, times }) => trace
                .repeat(records, times)
                .ok_or(Unreadable(line.number))?,
        }
    }
    Ok(())
}
