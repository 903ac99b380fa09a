// Upstream's methods for C: a thread record that C lends, changed in place.
ghost use Rattle.std.specs.Prelude.{◌≡◌};
ghost use Rattle.usage.specs.Says.{enable_outcome, disable_outcome, accumulate_outcome};

use usage::ThreadUsage;

// Each answers 01's number, 0 where accepted. A refusal leaves the lent record as it was.
#[unsafe(no_mangle)]
pub extern "C" fn usage_enable(thread: &mut ThreadUsage) -> i32
    ensures { (result ≡ (enable_outcome thread.old).code) × (thread.new ≡ (enable_outcome thread.old).usage) }
{
    tickclock::lent::usage_enable(thread)
}

#[unsafe(no_mangle)]
pub extern "C" fn usage_disable(thread: &mut ThreadUsage) -> i32
    ensures { (result ≡ (disable_outcome thread.old).code) × (thread.new ≡ (disable_outcome thread.old).usage) }
{
    tickclock::lent::usage_disable(thread)
}

#[unsafe(no_mangle)]
pub extern "C" fn usage_accumulate(thread: &mut ThreadUsage, cycles: u32) -> i32
    ensures { (result ≡ (accumulate_outcome thread.old cycles).code) × (thread.new ≡ (accumulate_outcome thread.old cycles).usage) }
{
    tickclock::lent::usage_accumulate(thread, cycles)
}

#[unsafe(no_mangle)]
pub extern "C" fn usage_is_tracked(thread: &ThreadUsage) -> bool
    ensures { result ≡ thread.now.track_usage }
{
    tickclock::lent::usage_is_tracked(thread)
}
