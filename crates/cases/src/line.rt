// A line of the list, taken byte by byte.
use arrayvec::ArrayVec;

// More than any row of the list has.
const COLUMNS: usize = 12;

#[derive(Drop)]
pub enum Line {
    Row(Row),
    Comment,
    Unreadable,
}

// A row so far. An empty line is one with no number.
#[derive(Drop)]
pub struct Row {
    // Those that are whole.
    numbers: ArrayVec<u64, COLUMNS>,
    // What the digits so far make of one that has begun.
    begun: Option<u64>,
}

impl Line {
    pub(crate) fn new() -> Self {
        Line::Row(Row {
            numbers: ArrayVec::new(),
            begun: None,
        })
    }

    // Takes a byte more, which is no line feed. A comment takes a whole line: after a number it is a slip.
    pub(crate) fn push(&mut self, byte: u8) {
        let Line::Row(row) = self else {
            return;
        };
        if byte == b'#' && row.is_empty() {
            *self = Line::Comment;
        } else if row.push(byte).is_none() {
            *self = Line::Unreadable;
        }
    }

    // The line is whole, and so is its last number.
    pub(crate) fn end(&mut self) {
        self.push(b' ');
    }
}

impl Row {
    pub(crate) fn numbers(&self) -> &[u64] {
        self.numbers.as_slice()
    }

    fn is_empty(&self) -> bool {
        self.numbers.is_empty() && self.begun.is_none()
    }

    // None where the byte makes the row unreadable.
    fn push(&mut self, byte: u8) -> Option<()> {
        match byte {
            b'0'..=b'9' => self.push_digit(byte - b'0'),
            b' ' => self.close(),
            _ => None,
        }
    }

    // None where 64 bits don't hold the number.
    fn push_digit(&mut self, digit: u8) -> Option<()> {
        let tens = self.begun.unwrap_or(0).checked_mul(10)?;
        self.begun = Some(tens.checked_add(u64::from(digit))?);
        Some(())
    }

    // None where there is no room for the number that had begun.
    fn close(&mut self) -> Option<()> {
        match self.begun.take() {
            Some(number) => self.numbers.try_push(number).ok(),
            None => Some(()),
        }
    }
}
