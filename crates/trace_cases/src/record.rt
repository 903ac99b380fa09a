// A record: the word and the numbers of a line, and its bytes in a trace.

// How many bytes a record has.
pub const SIZE: usize = 16;

#[derive(Clone, Copy)]
pub struct Record {
    // No enum: it is a byte of the trace that is made.
    kind: u8,
    thread: u8,
    p: u32,
    q: u32,
    r: u32,
}

impl Record {
    // The word gives the first fields, of which the kind is document 01's number, and the numbers are for those that
    // follow. Fields left out at the end are 0.
    pub(crate) fn read(word: &[u8], numbers: &[u32]) -> Option<Self> {
        let given: &[u32] = match word {
            b"record" => &[],
            b"run" => &[0, 0],
            b"sample" => &[1, 0],
            b"announce" => &[2, 0],
            b"start" => &[3],
            b"switch" => &[4],
            b"stop" => &[5, 0],
            b"enable" => &[6],
            b"disable" => &[7],
            b"report" => &[8],
            b"setup" => &[9, 0],
            _ => return None,
        };
        let mut fields = [0u32; 5];
        if fields.len() - given.len() < numbers.len() {
            return None;
        }
        for (field, number) in fields.iter_mut().zip(given.iter().chain(numbers)) {
            *field = *number;
        }
        let [kind, thread, p, q, r] = fields;
        Some(Record {
            kind: u8::try_from(kind).ok()?,
            thread: u8::try_from(thread).ok()?,
            p,
            q,
            r,
        })
    }

    pub(crate) fn bytes(self) -> [u8; SIZE] {
        let mut bytes = [0u8; SIZE];
        bytes[0] = self.kind;
        bytes[1] = self.thread;
        bytes[4..8].copy_from_slice(&self.p.to_le_bytes());
        bytes[8..12].copy_from_slice(&self.q.to_le_bytes());
        bytes[12..16].copy_from_slice(&self.r.to_le_bytes());
        bytes
    }
}
