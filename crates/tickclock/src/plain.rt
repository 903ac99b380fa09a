// Between C's plain numbers and the types of the crates below.
ghost use Rattle.std.specs.Prelude.{◌≡◌};
ghost use Rattle.tickclock.specs.Plain.{is_set, flag_of, usage_of};

use units::Cycles;
use usage::ThreadUsage;

// C's flags are numbers, and any but 0 is set: a test, and no conversion that a `From` has.
#[tactic(auto, unfolding(crate::specs::Plain::is_set))]
pub fn is_set(flag: u32) -> bool
    ensures { result ≡ is_set flag }
{
    flag != 0
}

#[tactic(auto, unfolding(crate::specs::Plain::flag_of))]
pub fn flag_of(on: bool) -> u32
    ensures { result ≡ flag_of on }
{
    u32::from(on)
}

#[tactic(auto, unfolding(crate::specs::Plain::usage_of))]
pub fn usage_of(track_usage: u32, total_cycles: u64, num_windows: u32) -> ThreadUsage
    ensures { result ≡ usage_of track_usage total_cycles num_windows }
{
    ThreadUsage {
        track_usage: is_set(track_usage),
        total_cycles: Cycles(total_cycles),
        num_windows: num_windows,
    }
}
