// A line of the list: what it adds to its case's trace, and the line that the text must have.
use crate::record::{self, Record};
use crate::text::{Line, split_before};
use arrayvec::ArrayVec;
use std::fmt;

// The most numbers that a line may have: a record's bytes.
const MOST: usize = record::SIZE;

// The records of the longest trace.
const MOST_RECORDS: usize = transcript::MOST_BYTES / record::SIZE;

#[derive(Drop)]
pub enum Step {
    Record(Record),
    Bytes(ArrayVec<u8, MOST>),
    // So many of the last records, so many times more.
    Again { records: u16, times: u16 },
}

// The number of the line that can't be read.
#[derive(Clone, Copy)]
pub struct Unreadable(pub u64);

impl fmt::Display for Unreadable {
    fn fmt<W: fmt::Write>(&self, f: &mut fmt::Formatter<W>) -> fmt::Result {
        let number = self.0;
        write!(f, "line {number} of the list is unreadable")
    }
}

impl<'a> Line<'a> {
    pub(crate) fn begins_case(self) -> bool {
        after_word(self.text, b"trace").is_some()
    }

    // A comment adds nothing, nor does an empty line, or one that only says what the text must have.
    pub(crate) fn step(self) -> Result<Option<Step>, Unreadable> {
        let (step, _) = split_step(self.text);
        if step.is_empty() {
            return Ok(None);
        }
        let step = read_step(step).ok_or(Unreadable(self.number))?;
        Ok(Some(step))
    }

    // Where it is an `again` that can be read: so many records, so many times.
    pub(crate) fn again(self) -> Option<(u16, u16)> {
        let (step, _) = split_step(after_word(self.text, b"again")?);
        read_again(read_numbers(step)?.as_slice())
    }

    // What follows `>`. A comment may have a `>` of its own.
    pub(crate) fn wanted(self) -> Option<&'a [u8]> {
        let (_, rest) = split_step(self.text);
        let (_, wanted) = split_before(rest.strip_prefix(b">")?, |byte| *byte != b' ');
        Some(wanted)
    }
}

// What the line adds, and the rest, from `>` or a comment's `#` on.
fn split_step(line: &[u8]) -> (&[u8], &[u8]) {
    split_before(line, |byte| matches!(*byte, b'>' | b'#'))
}

// What follows a line's first word, where it is this one.
fn after_word<'a>(line: &'a [u8], word: &[u8]) -> Option<&'a [u8]> {
    let rest = line.strip_prefix(word)?;
    let longer = rest.first().is_some_and(|byte| byte.is_ascii_lowercase());
    (!longer).then_some(rest)
}

fn split_word(step: &[u8]) -> (&[u8], &[u8]) {
    split_before(step, |byte| !byte.is_ascii_lowercase())
}

fn read_step(step: &[u8]) -> Option<Step> {
    let (word, rest) = split_word(step);
    let numbers = read_numbers(rest)?;
    match word {
        b"bytes" => read_bytes(numbers.as_slice()),
        b"again" => {
            let (records, times) = read_again(numbers.as_slice())?;
            Some(Step::Again { records, times })
        }
        _ => Some(Step::Record(Record::read(word, numbers.as_slice())?)),
    }
}

fn read_numbers(text: &[u8]) -> Option<ArrayVec<u32, MOST>> {
    // The spaces in front are passed at once, since a line may be padded.
    let (_, text) = split_before(text, |byte| *byte != b' ');
    let mut numbers = ArrayVec::new();
    for digits in text
        .split(|byte| *byte == b' ')
        .filter(|digits| !digits.is_empty())
    {
        numbers.try_push(read_number(digits)?).ok()?;
    }
    Some(numbers)
}

// Nothing but digits, and no number that is too large for the widest field of a record.
fn read_number(digits: &[u8]) -> Option<u32> {
    digits.iter().try_fold(0u32, |number, byte| match *byte {
        b'0'..=b'9' => number.checked_mul(10)?.checked_add(u32::from(*byte - b'0')),
        _ => None,
    })
}

fn read_bytes(numbers: &[u32]) -> Option<Step> {
    let mut bytes = ArrayVec::new();
    for number in numbers {
        bytes.try_push(u8::try_from(*number).ok()?).ok()?;
    }
    Some(Step::Bytes(bytes))
}

fn read_again(numbers: &[u32]) -> Option<(u16, u16)> {
    let [records, times] = numbers else {
        return None;
    };
    Some((read_count(*records)?, read_count(*times)?))
}

fn read_count(number: u32) -> Option<u16> {
    let count = u16::try_from(number).ok()?;
    (usize::from(count) <= MOST_RECORDS).then_some(count)
}
