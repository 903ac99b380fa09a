// A thread record that C lends, changed in place by upstream's methods.
ghost use Rattle.std.specs.Prelude.{◌≡◌};
ghost use Rattle.usage.specs.Says.{enable_outcome, disable_outcome, accumulate_outcome};

use usage::ThreadUsage;

// Each answers 01's number, 0 where accepted. A refusal leaves the lent record as it was.
#[tactic(auto, using(usage::proofs::Done::number_done), unfolding(error::specs::Said::number_in, usage::specs::Says::kept))]
pub fn usage_enable(thread: &mut ThreadUsage) -> i32
    ensures { (result ≡ (enable_outcome thread.old).code) × (thread.new ≡ (enable_outcome thread.old).usage) }
{
    error::number(thread.enable())
}

#[tactic(auto, using(usage::proofs::Done::number_done), unfolding(error::specs::Said::number_in, usage::specs::Says::kept))]
pub fn usage_disable(thread: &mut ThreadUsage) -> i32
    ensures { (result ≡ (disable_outcome thread.old).code) × (thread.new ≡ (disable_outcome thread.old).usage) }
{
    error::number(thread.disable())
}

#[tactic(auto, using(usage::proofs::Done::number_done), unfolding(error::specs::Said::number_in, usage::specs::Says::kept))]
pub fn usage_accumulate(thread: &mut ThreadUsage, cycles: u32) -> i32
    ensures { (result ≡ (accumulate_outcome thread.old cycles).code) × (thread.new ≡ (accumulate_outcome thread.old cycles).usage) }
{
    error::number(thread.accumulate(cycles))
}

pub fn usage_is_tracked(thread: &ThreadUsage) -> bool
    ensures { result ≡ thread.now.track_usage }
{
    thread.is_tracked()
}
