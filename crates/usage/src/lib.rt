// A thread's usage record and its leaves: upstream's usage.rs by value, on any numbers. Sums are tested before they are
// made, as document 01 has it.
#![tactic(auto)]

ghost use Rattle.std.specs.Prelude.{◌≡◌};
ghost use Rattle.usage.specs.Formulas.{new_idle, average_cycles, elapsed_stamps};
ghost use Rattle.usage.specs.Leaves.{enabled, disabled, accumulated, sys_enable_decide, sys_disable_decide, start_decide, stop_decide};
ghost use Rattle.usage.specs.Says.{sys_track_says, start_says, stop_says};

use error::Refusal;
use units::Cycles;

mod lent;

// Laid out for C, which may lend one.
#[repr(C)]
#[derive(Clone, Copy)]
pub struct ThreadUsage {
    pub track_usage: bool,
    pub total_cycles: Cycles,
    pub num_windows: u32,
}

impl ThreadUsage {
    // How many threads a ledger keeps. The statements say it once more (`thread_slots`).
    pub const SLOTS: usize = 16;

    // A full count of windows: one more would not fit.
    pub const MAX_WINDOWS: u32 = 4294967295;

    // Upstream's constructor, by its name and in place of a `Default`.
    pub fn new_idle() -> Self
        ensures { result ≡ new_idle }
    {
        Self {
            track_usage: false,
            total_cycles: Cycles(0),
            num_windows: 0,
        }
    }
}

pub fn is_tracked(usage: ThreadUsage) -> bool
    ensures { result ≡ usage.track_usage }
{
    usage.track_usage
}

// Tracking set, and a window opened, unless it was set.
#[tactic(auto, unfolding(crate::specs::Leaves::enabled))]
pub fn enabled(usage: ThreadUsage) -> Result<ThreadUsage, Refusal>
    ensures { result ≡ enabled usage }
{
    if usage.track_usage {
        return Ok(usage);
    }
    let windows = usage.num_windows;
    if windows == ThreadUsage::MAX_WINDOWS {
        return Err(Refusal::Overflow);
    }
    let mut next = usage;
    next.track_usage = true;
    next.num_windows = windows + 1;
    Ok(next)
}

// Tracking cleared; the history stays.
pub fn disabled(usage: ThreadUsage) -> Result<ThreadUsage, Refusal>
    ensures { result ≡ disabled usage }
{
    let mut next = usage;
    next.track_usage = false;
    Ok(next)
}

// The total never wraps: what would not fit is refused.
#[tactic(auto, unfolding(crate::specs::Leaves::accumulated))]
pub fn accumulated(usage: ThreadUsage, cycles: u32) -> Result<ThreadUsage, Refusal>
    ensures { result ≡ accumulated usage cycles }
{
    let add = cycles as u64;
    let room = u64::MAX - add;
    if room < usage.total_cycles.0 {
        return Err(Refusal::Overflow);
    }
    let new_total = usage.total_cycles.0 + add;
    let total = Cycles(new_total);
    let mut next = usage;
    next.total_cycles = total;
    Ok(next)
}

// The decisions bear upstream's names, one type for each question, with a reader each for C.
#[derive(Clone, Copy)]
pub enum SysTrackDecision {
    NoOp,
    Apply,
}

#[tactic(auto, unfolding(crate::specs::Says::sys_track_says))]
impl SysTrackDecision {
    pub fn is_apply(self) -> bool
        ensures { result ≡ (sys_track_says self).value }
    {
        matches!(self, SysTrackDecision::Apply)
    }
}

// Whether enabling for the whole system has work to do.
pub fn sys_enable_decide(current_tracking: bool) -> SysTrackDecision
    ensures { result ≡ sys_enable_decide current_tracking }
{
    if current_tracking {
        SysTrackDecision::NoOp
    } else {
        SysTrackDecision::Apply
    }
}

// Whether disabling for the whole system has work to do.
pub fn sys_disable_decide(current_tracking: bool) -> SysTrackDecision
    ensures { result ≡ sys_disable_decide current_tracking }
{
    if !current_tracking {
        SysTrackDecision::NoOp
    } else {
        SysTrackDecision::Apply
    }
}

#[derive(Clone, Copy)]
pub enum StartDecision {
    RecordStart,
    RecordOnly,
}

#[tactic(auto, unfolding(crate::specs::Says::start_says))]
impl StartDecision {
    pub fn is_record_start(self) -> bool
        ensures { result ≡ (start_says self).value }
    {
        matches!(self, StartDecision::RecordStart)
    }
}

// Whether a start begins the window anew besides taking the time; the count of windows stays.
pub fn start_decide(track_usage: bool) -> StartDecision
    ensures { result ≡ start_decide track_usage }
{
    if track_usage {
        StartDecision::RecordStart
    } else {
        StartDecision::RecordOnly
    }
}

#[derive(Clone, Copy)]
pub enum StopDecision {
    Accumulate,
    Skip,
}

#[tactic(auto, unfolding(crate::specs::Says::stop_says))]
impl StopDecision {
    pub fn is_accumulate(self) -> bool
        ensures { result ≡ (stop_says self).value }
    {
        matches!(self, StopDecision::Accumulate)
    }
}

// Whether a stop has a start to count from: the stamp 0 says that there was none.
pub fn stop_decide(usage0: u32) -> StopDecision
    ensures { result ≡ stop_decide usage0 }
{
    if usage0 != 0 {
        StopDecision::Accumulate
    } else {
        StopDecision::Skip
    }
}

// The cycles of a window on average.
#[tactic(auto, unfolding(crate::specs::Formulas::average_cycles))]
pub fn average_cycles(total_cycles: Cycles, num_windows: u32) -> Cycles
    ensures { result ≡ average_cycles total_cycles num_windows }
{
    if num_windows == 0 {
        return Cycles(0);
    }
    let average = total_cycles.0 / (num_windows as u64);
    Cycles(average)
}

// The cycles from one stamp to another, right across a wrap of the 32-bit stamp.
pub fn elapsed_cycles(now: u32, usage0: u32) -> u32
    ensures { result ≡ elapsed_stamps now usage0 }
{
    std::num::wrapping_sub_u32(now, usage0)
}
