// A code's text: a minus sign where it is below 0, and its digits.
ghost use Rattle.std.specs.Prelude.{◌≡◌, [], ◌∷◌, ◌++◌, length};
ghost use Rattle.lines.specs.Text.{signed};
ghost use Rattle.lines.specs.Writing.{Room, Put};

use crate::digits::{places, put_number};

#[tactic(auto, using(crate::proofs::Decimal::size_64, crate::proofs::Signs::minus_sign, crate::proofs::Signs::no_sign, crate::proofs::Signs::same))]
pub(crate) fn code_places(code: i32) -> usize
    ensures { result ≡ length (signed code) }
{
    let digits = places(code.unsigned_abs() as u64);
    if code < 0 { digits + 1 } else { digits }
}

// A code and the byte after it.
#[tactic(auto, using(crate::proofs::Signs::minus_sign, crate::proofs::Signs::no_sign, crate::proofs::Signs::same, crate::proofs::Stores::stores))]
pub(crate) fn put_code(out: &mut [u8], at: usize, code: i32, after: u8) -> usize
    requires { Room out.old at (signed code) }
    ensures { Put out.old out.new at result (signed code ++ after ∷ []) }
{
    let number = code.unsigned_abs() as u64;
    if code < 0 {
        out[at] = b'-';
        return put_number(out, at + 1, number, after);
    }
    put_number(out, at, number, after)
}
