// Document 01's numbers with upstream's values, and the one list of reasons to refuse.
#![tactic(auto)]

ghost use Rattle.std.specs.Prelude.{◌≡◌};
ghost use Rattle.error.specs.Numbers.{number_of};
ghost use Rattle.error.specs.Said.{number_in};

pub const OK: i32 = 0;

pub const ENOENT: i32 = -2;

pub const EBADF: i32 = -9;

pub const EAGAIN: i32 = -11;

pub const EINVAL: i32 = -22;

pub const ENOSPC: i32 = -28;

pub const EALREADY: i32 = -114;

pub const EOVERFLOW: i32 = -139;

// Why an entry turns its caller away.
#[derive(Clone, Copy, PartialEq, Eq)]
pub enum Refusal {
    // Nothing is set up yet.
    Missing,
    // No such thread.
    BadThread,
    // Announce first, then try again.
    Again,
    // A number or a byte that cannot be.
    Invalid,
    // No room in what was lent.
    NoSpace,
    // Done already, or under way.
    Already,
    // A result that would not fit.
    Overflow,
}

impl Refusal {
    // A method and no `From`: `i32::from(why)` would not say which number that is.
    pub fn number(self) -> i32
        ensures { result ≡ number_of self }
    {
        match self {
            Refusal::Missing => ENOENT,
            Refusal::BadThread => EBADF,
            Refusal::Again => EAGAIN,
            Refusal::Invalid => EINVAL,
            Refusal::NoSpace => ENOSPC,
            Refusal::Already => EALREADY,
            Refusal::Overflow => EOVERFLOW,
        }
    }
}

// The number of an answer: 0 where it was accepted.
#[tactic(auto, unfolding(crate::specs::Said::number_in))]
pub fn number<T: Drop>(answer: Result<T, Refusal>) -> i32
    ensures { result ≡ number_in answer }
{
    match answer {
        Ok(_) => OK,
        Err(why) => why.number(),
    }
}
