// A thread record's leaves for C.
ghost use Rattle.std.specs.Prelude.{◌≡◌};
ghost use Rattle.error.specs.Numbers.{ok};
ghost use Rattle.usage.specs.Formulas.{new_idle, average_cycles, elapsed_stamps};
ghost use Rattle.usage.specs.Leaves.{enabled, disabled, accumulated, sys_enable_decide, sys_disable_decide, start_decide, stop_decide};
ghost use Rattle.usage.specs.Says.{changed_says, sys_track_says, start_says, stop_says};
ghost use Rattle.tickclock.specs.Plain.{is_set, flag_of, usage_of};

use crate::plain;
use units::Cycles;
use usage::ThreadUsage;

pub fn usage_enable_number(track_usage: u32, total_cycles: u64, num_windows: u32) -> i32
    ensures { result ≡ (changed_says (enabled (usage_of track_usage total_cycles num_windows))).number }
{
    let before = plain::usage_of(track_usage, total_cycles, num_windows);
    error::number(usage::enabled(before))
}

pub fn usage_enable_track_usage(track_usage: u32, total_cycles: u64, num_windows: u32) -> u32
    ensures { result ≡ flag_of (changed_says (enabled (usage_of track_usage total_cycles num_windows))).value.track_usage }
{
    let before = plain::usage_of(track_usage, total_cycles, num_windows);
    let after = usage::enabled(before).unwrap_or(ThreadUsage::new_idle());
    plain::flag_of(after.track_usage)
}

pub fn usage_enable_total_cycles(track_usage: u32, total_cycles: u64, num_windows: u32) -> u64
    ensures { result ≡ (changed_says (enabled (usage_of track_usage total_cycles num_windows))).value.total_cycles.0 }
{
    let before = plain::usage_of(track_usage, total_cycles, num_windows);
    let after = usage::enabled(before).unwrap_or(ThreadUsage::new_idle());
    after.total_cycles.0
}

pub fn usage_enable_num_windows(track_usage: u32, total_cycles: u64, num_windows: u32) -> u32
    ensures { result ≡ (changed_says (enabled (usage_of track_usage total_cycles num_windows))).value.num_windows }
{
    let before = plain::usage_of(track_usage, total_cycles, num_windows);
    let after = usage::enabled(before).unwrap_or(ThreadUsage::new_idle());
    after.num_windows
}

pub fn usage_disable_number(track_usage: u32, total_cycles: u64, num_windows: u32) -> i32
    ensures { result ≡ (changed_says (disabled (usage_of track_usage total_cycles num_windows))).number }
{
    let before = plain::usage_of(track_usage, total_cycles, num_windows);
    error::number(usage::disabled(before))
}

pub fn usage_disable_track_usage(track_usage: u32, total_cycles: u64, num_windows: u32) -> u32
    ensures { result ≡ flag_of (changed_says (disabled (usage_of track_usage total_cycles num_windows))).value.track_usage }
{
    let before = plain::usage_of(track_usage, total_cycles, num_windows);
    let after = usage::disabled(before).unwrap_or(ThreadUsage::new_idle());
    plain::flag_of(after.track_usage)
}

pub fn usage_disable_total_cycles(track_usage: u32, total_cycles: u64, num_windows: u32) -> u64
    ensures { result ≡ (changed_says (disabled (usage_of track_usage total_cycles num_windows))).value.total_cycles.0 }
{
    let before = plain::usage_of(track_usage, total_cycles, num_windows);
    let after = usage::disabled(before).unwrap_or(ThreadUsage::new_idle());
    after.total_cycles.0
}

pub fn usage_disable_num_windows(track_usage: u32, total_cycles: u64, num_windows: u32) -> u32
    ensures { result ≡ (changed_says (disabled (usage_of track_usage total_cycles num_windows))).value.num_windows }
{
    let before = plain::usage_of(track_usage, total_cycles, num_windows);
    let after = usage::disabled(before).unwrap_or(ThreadUsage::new_idle());
    after.num_windows
}

pub fn usage_accumulate_number(
    track_usage: u32,
    total_cycles: u64,
    num_windows: u32,
    cycles: u32,
) -> i32
    ensures { result ≡ (changed_says (accumulated (usage_of track_usage total_cycles num_windows) cycles)).number }
{
    let before = plain::usage_of(track_usage, total_cycles, num_windows);
    error::number(usage::accumulated(before, cycles))
}

pub fn usage_accumulate_track_usage(
    track_usage: u32,
    total_cycles: u64,
    num_windows: u32,
    cycles: u32,
) -> u32
    ensures { result ≡ flag_of (changed_says (accumulated (usage_of track_usage total_cycles num_windows) cycles)).value.track_usage }
{
    let before = plain::usage_of(track_usage, total_cycles, num_windows);
    let after = usage::accumulated(before, cycles).unwrap_or(ThreadUsage::new_idle());
    plain::flag_of(after.track_usage)
}

pub fn usage_accumulate_total_cycles(
    track_usage: u32,
    total_cycles: u64,
    num_windows: u32,
    cycles: u32,
) -> u64
    ensures { result ≡ (changed_says (accumulated (usage_of track_usage total_cycles num_windows) cycles)).value.total_cycles.0 }
{
    let before = plain::usage_of(track_usage, total_cycles, num_windows);
    let after = usage::accumulated(before, cycles).unwrap_or(ThreadUsage::new_idle());
    after.total_cycles.0
}

pub fn usage_accumulate_num_windows(
    track_usage: u32,
    total_cycles: u64,
    num_windows: u32,
    cycles: u32,
) -> u32
    ensures { result ≡ (changed_says (accumulated (usage_of track_usage total_cycles num_windows) cycles)).value.num_windows }
{
    let before = plain::usage_of(track_usage, total_cycles, num_windows);
    let after = usage::accumulated(before, cycles).unwrap_or(ThreadUsage::new_idle());
    after.num_windows
}

pub fn usage_average_cycles_number(total_cycles: u64, num_windows: u32) -> i32
    ensures { result ≡ ok }
{
    error::OK
}

pub fn usage_average_cycles_cycles(total_cycles: u64, num_windows: u32) -> u64
    ensures { result ≡ (average_cycles (record { 0 = total_cycles }) num_windows).0 }
{
    let cycles = usage::average_cycles(Cycles(total_cycles), num_windows);
    cycles.0
}

pub fn usage_elapsed_cycles_number(now: u32, usage0: u32) -> i32
    ensures { result ≡ ok }
{
    error::OK
}

pub fn usage_elapsed_cycles_cycles(now: u32, usage0: u32) -> u32
    ensures { result ≡ elapsed_stamps now usage0 }
{
    usage::elapsed_cycles(now, usage0)
}

pub fn usage_is_tracked_number(track_usage: u32, total_cycles: u64, num_windows: u32) -> i32
    ensures { result ≡ ok }
{
    error::OK
}

pub fn usage_is_tracked_tracked(track_usage: u32, total_cycles: u64, num_windows: u32) -> u32
    ensures { result ≡ flag_of (usage_of track_usage total_cycles num_windows).track_usage }
{
    let usage = plain::usage_of(track_usage, total_cycles, num_windows);
    plain::flag_of(usage::is_tracked(usage))
}

pub fn usage_new_idle_number() -> i32
    ensures { result ≡ ok }
{
    error::OK
}

pub fn usage_new_idle_track_usage() -> u32
    ensures { result ≡ flag_of new_idle.track_usage }
{
    let usage = ThreadUsage::new_idle();
    plain::flag_of(usage.track_usage)
}

pub fn usage_new_idle_total_cycles() -> u64
    ensures { result ≡ new_idle.total_cycles.0 }
{
    let usage = ThreadUsage::new_idle();
    usage.total_cycles.0
}

pub fn usage_new_idle_num_windows() -> u32
    ensures { result ≡ new_idle.num_windows }
{
    let usage = ThreadUsage::new_idle();
    usage.num_windows
}

pub fn usage_sys_enable_decide_number(current_tracking: u32) -> i32
    ensures { result ≡ ok }
{
    error::OK
}

pub fn usage_sys_enable_decide_apply(current_tracking: u32) -> u32
    ensures { result ≡ flag_of (sys_track_says (sys_enable_decide (is_set current_tracking))).value }
{
    let on = plain::is_set(current_tracking);
    plain::flag_of(usage::sys_enable_decide(on).is_apply())
}

pub fn usage_sys_disable_decide_number(current_tracking: u32) -> i32
    ensures { result ≡ ok }
{
    error::OK
}

pub fn usage_sys_disable_decide_apply(current_tracking: u32) -> u32
    ensures { result ≡ flag_of (sys_track_says (sys_disable_decide (is_set current_tracking))).value }
{
    let on = plain::is_set(current_tracking);
    plain::flag_of(usage::sys_disable_decide(on).is_apply())
}

pub fn usage_start_decide_number(track_usage: u32) -> i32
    ensures { result ≡ ok }
{
    error::OK
}

pub fn usage_start_decide_record_start(track_usage: u32) -> u32
    ensures { result ≡ flag_of (start_says (start_decide (is_set track_usage))).value }
{
    let on = plain::is_set(track_usage);
    plain::flag_of(usage::start_decide(on).is_record_start())
}

pub fn usage_stop_decide_number(usage0: u32) -> i32
    ensures { result ≡ ok }
{
    error::OK
}

pub fn usage_stop_decide_accumulate(usage0: u32) -> u32
    ensures { result ≡ flag_of (stop_says (stop_decide usage0)).value }
{
    plain::flag_of(usage::stop_decide(usage0).is_accumulate())
}
