// A record's number at the head of its line: all but its last two digits are kept as text from line to line.
ghost use Rattle.std.specs.Prelude.{◌≡◌};
ghost use Rattle.lines.specs.Naming.{digits_kept, of_parts, label_of, next_label, joined, label_put, label_written};

use crate::LINE_ROOM;
use crate::buffer::{ask_room, put_letters};
use crate::digits::{put_digits, put_number, put_two};
use error::Refusal;

// One digit to eight.
#[derive(Clone, Copy)]
struct Digits {
    size: usize,
    // They are its first bytes.
    text: [u8; 8],
}

// Made by `of` and `next` alone.
#[derive(Clone, Copy)]
pub struct Label {
    // The number without its last two digits, and those.
    head: u64,
    pair: u64,
    // The head's digits, where they are kept.
    digits: Option<Digits>,
}

// A head of one digit to eight is kept as text.
#[tactic(auto, using(crate::proofs::Decimal::size_eight), unfolding(crate::specs::Naming::digits_kept))]
fn digits_kept(head: u64) -> Option<Digits>
    ensures { result ≡ digits_kept head }
{
    match head {
        1..=99999999 => {
            let mut text = [0u8; 8];
            let size = put_digits(&mut text, 0, head);
            Some(Digits { size, text })
        }
        _ => None,
    }
}

#[tactic(auto, unfolding(crate::specs::Naming::of_parts))]
fn of_parts(head: u64, pair: u64) -> Label
    ensures { result ≡ of_parts head pair }
{
    Label {
        head,
        pair,
        digits: digits_kept(head),
    }
}

impl Label {
    #[tactic(auto, unfolding(crate::specs::Naming::label_of))]
    pub fn of(number: u64) -> Label
        ensures { result ≡ label_of number }
    {
        of_parts(number / 100, number % 100)
    }

    // The next number's. Its text is another one once in a hundred.
    #[tactic(auto, unfolding(crate::specs::Naming::next_label))]
    pub fn next(mut self) -> Label
        ensures { result ≡ next_label self }
    {
        if self.pair < 99 {
            self.pair += 1;
            return self;
        }
        match self.head.checked_add(1) {
            Some(head) => of_parts(head, 0),
            None => self,
        }
    }
}

// The number that the two parts make; 0 where it has more than 64 bits.
#[tactic(auto, unfolding(crate::specs::Naming::joined))]
fn whole(head: u64, pair: u64) -> u64
    ensures { result ≡ joined head pair }
{
    head.checked_mul(100)
        .and_then(|hundreds| hundreds.checked_add(pair))
        .unwrap_or(0)
}

// The number and a space, where the longest line has room. The eight bytes of the text are put whole, as one store:
// what of them stands behind the digits belongs to the rest of the line. A label of `of` or `next` has at most eight
// digits and a pair below 100; the contract speaks of any, so it is asked. As the invariant of an `impl Model` of
// `Digits` the checker would know it of the digits, but could not follow a label that is passed and then used again.
#[tactic(auto, using(crate::proofs::Decimal::size_64, crate::proofs::Named::put_again, crate::proofs::Stores::stores), unfolding(crate::specs::Naming::usable, crate::specs::Naming::text_by, crate::specs::Naming::under_by, crate::specs::Naming::label_text, crate::specs::Naming::underneath, crate::specs::Naming::label_put, crate::specs::Buffer::roomy_written))]
pub fn put_label(out: &mut [u8], at: usize, label: Label) -> Result<usize, Refusal>
    ensures answer { result ≡ label_written out.old at label }
    ensures buffer { out.new ≡ label_put out.old at label }
{
    ask_room(out.len(), at, LINE_ROOM)?;
    let Label { head, pair, digits } = label;
    match digits {
        Some(digits) if (digits.size <= 8) & (pair <= 99) => {
            let text = digits.text;
            put_letters(out, at, &text);
            let second = at + digits.size;
            put_two(out, second, pair as u8);
            out[second + 2] = b' ';
            Ok(second + 3)
        }
        _ => Ok(put_number(out, at, whole(head, pair), b' ')),
    }
}
