// The output's lines, put into a lent buffer, whole or what follows the number: all of it, or nothing where it has no
// room.
#![tactic(auto)]

ghost use Rattle.std.specs.Prelude.{◌≡◌, Ok, Err, cond, ◌+◌, ◌≤◌, [], ◌∷◌, ◌++◌, length, ltb, pos};
ghost use Rattle.lines.specs.Text.{signed, line_text, end_text, tail_text, input_text, values_text};
ghost use Rattle.error.specs.Numbers.{number_of};
ghost use Rattle.error.specs.declared.Refusal.TheVariants.{NoSpace};
ghost use Rattle.lines.specs.Writing.{Put};
ghost use Rattle.lines.specs.Buffer.{put_of, written_of, rest_room, roomy_put, roomy_written};

use buffer::{ask_room, put_letters};
use codes::{code_places, put_code};
use digits::{places, put_number};
use error::Refusal;

mod buffer;
mod codes;
mod digits;
pub mod label;

// The longest line: three numbers of 20 digits, a code of 11 bytes and four bytes between and after them.
pub const LINE_ROOM: usize = 75;

// And of it what follows the number.
const REST_ROOM: usize = 54;

// A line's numbers go one by one: this crate knows nothing of the machine, whose `Values` the last two are.

#[tactic(auto, using(crate::proofs::Decimal::size_64, crate::proofs::Sizes::code_most, crate::proofs::Signs::same, crate::proofs::Stores::stores), unfolding(crate::specs::Text::line_text))]
fn line_size(number: u64, code: i32, x: u64, y: u64) -> usize
    ensures { result ≡ length (line_text number code x y) }
{
    places(number) + code_places(code) + places(x) + places(y) + 4
}

// Most lines are put far from the buffer's end; only near it is the size counted.
#[tactic(auto, using(crate::proofs::Sizes::line_room_lem, crate::proofs::Signs::same))]
fn ask_line(room: usize, at: usize, number: u64, code: i32, x: u64, y: u64) -> Result<(), Refusal>
    ensures { result ≡ cond (ltb room (at + length (line_text number code x y))) (Err NoSpace) (Ok tt) }
{
    ask_room(room, at, LINE_ROOM).or_else(|_| ask_room(room, at, line_size(number, code, x, y)))
}

// What follows the number in a line: a code and two values.
#[tactic(auto, using(crate::proofs::Signs::same, crate::proofs::Stores::stores))]
fn put_rest(out: &mut [u8], at: usize, code: i32, x: u64, y: u64) -> usize
    requires { at + length (values_text code x y) ≤ length out.old }
    ensures { Put out.old out.new at result (values_text code x y) }
{
    let second = put_code(out, at, code, b' ');
    let third = put_number(out, second, x, b' ');
    put_number(out, third, y, b'\n')
}

// A step's line: its number, its code and two values; any code, whose text is promised (`Writers`), and no reason
// alone.
#[tactic(auto, using(crate::proofs::Signs::same, crate::proofs::Stores::stores), unfolding(crate::specs::Text::line_text, crate::specs::Buffer::written_of, crate::specs::Buffer::put_of, crate::specs::Buffer::fits))]
pub fn put_line(
    out: &mut [u8],
    at: usize,
    number: u64,
    code: i32,
    x: u64,
    y: u64,
) -> Result<usize, Refusal>
    ensures answer { result ≡ written_of out.old at (line_text number code x y) }
    ensures buffer { out.new ≡ put_of out.old at (line_text number code x y) }
{
    ask_line(out.len(), at, number, code, x, y)?;
    let second = put_number(out, at, number, b' ');
    Ok(put_rest(out, second, code, x, y))
}

// What follows the number in the line of a step that was accepted: code 0 and two values. Room is asked for the
// longest, so that nothing has to be counted.
#[tactic(auto, using(crate::proofs::Sizes::rest_room_lem), unfolding(crate::specs::Buffer::roomy_written, crate::specs::Buffer::roomy_put))]
pub fn put_values(out: &mut [u8], at: usize, x: u64, y: u64) -> Result<usize, Refusal>
    ensures answer { result ≡ roomy_written rest_room out.old at (values_text (pos 0) x y) }
    ensures buffer { out.new ≡ roomy_put rest_room out.old at (values_text (pos 0) x y) }
{
    ask_room(out.len(), at, REST_ROOM)?;
    Ok(put_rest(out, at, 0, x, y))
}

// The same for one that was turned away: its code, 0 and 0. It takes any code, and promises its text (`Writers`).
#[tactic(auto, using(crate::proofs::Sizes::rest_room_lem, crate::proofs::Signs::same), unfolding(crate::specs::Buffer::roomy_written, crate::specs::Buffer::roomy_put))]
pub fn put_refusal(out: &mut [u8], at: usize, code: i32) -> Result<usize, Refusal>
    ensures answer { result ≡ roomy_written rest_room out.old at (values_text code 0 0) }
    ensures buffer { out.new ≡ roomy_put rest_room out.old at (values_text code 0 0) }
{
    ask_room(out.len(), at, REST_ROOM)?;
    Ok(put_rest(out, at, code, 0, 0))
}

// The line after the last record.
#[tactic(auto, using(crate::proofs::Decimal::size_64, crate::proofs::Stores::stores), unfolding(crate::specs::Text::end_text, crate::specs::Buffer::written_of, crate::specs::Buffer::put_of, crate::specs::Buffer::fits))]
pub fn put_end(out: &mut [u8], at: usize, cycles: u64, reading: u64) -> Result<usize, Refusal>
    ensures answer { result ≡ written_of out.old at (end_text cycles reading) }
    ensures buffer { out.new ≡ put_of out.old at (end_text cycles reading) }
{
    ask_room(out.len(), at, places(cycles) + places(reading) + 6)?;
    let second = put_letters(out, at, b"end ");
    let third = put_number(out, second, cycles, b' ');
    Ok(put_number(out, third, reading, b'\n'))
}

// A word with its space, and a reason's number.
#[tactic(auto, using(crate::proofs::Sizes::code_most, crate::proofs::Signs::same, crate::proofs::Stores::stores), unfolding(crate::specs::Buffer::written_of, crate::specs::Buffer::put_of, crate::specs::Buffer::fits))]
fn put_reason(out: &mut [u8], at: usize, letters: &[u8], why: Refusal) -> Result<usize, Refusal>
    requires { length letters.now ≤ 8 }
    ensures answer { result ≡ written_of out.old at (letters.now ++ signed (number_of why) ++ 10 ∷ []) }
    ensures buffer { out.new ≡ put_of out.old at (letters.now ++ signed (number_of why) ++ 10 ∷ []) }
{
    let code = why.number();
    ask_room(out.len(), at, letters.len() + code_places(code) + 1)?;
    let second = put_letters(out, at, letters);
    Ok(put_code(out, second, code, b'\n'))
}

// A trace whose last record is not whole.
#[tactic(auto, unfolding(crate::specs::Text::tail_text))]
pub fn put_tail(out: &mut [u8], at: usize) -> Result<usize, Refusal>
    ensures answer { result ≡ written_of out.old at tail_text }
    ensures buffer { out.new ≡ put_of out.old at tail_text }
{
    put_reason(out, at, b"tail ", Refusal::Invalid)
}

// A trace that is larger than the room for it.
#[tactic(auto, unfolding(crate::specs::Text::input_text))]
pub fn put_input(out: &mut [u8], at: usize) -> Result<usize, Refusal>
    ensures answer { result ≡ written_of out.old at input_text }
    ensures buffer { out.new ≡ put_of out.old at input_text }
{
    put_reason(out, at, b"input ", Refusal::NoSpace)
}
