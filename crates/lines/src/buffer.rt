// Room in a buffer, and bytes copied into it.
ghost use Rattle.std.specs.Prelude.{◌+◌, ◌≤◌, ◌≡◌, Ok, Err, cond, length, ltb};
ghost use Rattle.error.specs.declared.Refusal.TheVariants.{NoSpace};
ghost use Rattle.lines.specs.Writing.{Put};

use error::Refusal;

// Room for so many bytes from `at` on, by what is left behind it: a sum could be too large for a usize. With a match on
// `checked_sub` a record of a long trace, for which room is asked twice, takes 205 instructions and not 193.
pub(crate) fn ask_room(length: usize, at: usize, size: usize) -> Result<(), Refusal>
    ensures { result ≡ cond (ltb length (at + size)) (Err NoSpace) (Ok tt) }
{
    if length < at || length - at < size {
        return Err(Refusal::NoSpace);
    }
    Ok(())
}

#[tactic(auto, using(crate::proofs::Stores::copied))]
pub(crate) fn put_letters(out: &mut [u8], at: usize, letters: &[u8]) -> usize
    requires { at + length letters.now ≤ length out.old }
    ensures { Put out.old out.new at result letters.now }
{
    let end = at + letters.len();
    out[at..end].copy_from_slice(letters);
    end
}
