// A thread record's leaves for C.
ghost use Rattle.std.specs.Prelude.{◌≡◌};
ghost use Rattle.error.specs.Numbers.{ok};
ghost use Rattle.usage.specs.Formulas.{new_idle, average_cycles, elapsed_stamps};
ghost use Rattle.usage.specs.Leaves.{enabled, disabled, accumulated, sys_enable_decide, sys_disable_decide, start_decide, stop_decide};
ghost use Rattle.usage.specs.Says.{changed_says, sys_track_says, start_says, stop_says};
ghost use Rattle.tickclock.specs.Plain.{is_set, flag_of, usage_of};

#[unsafe(no_mangle)]
pub extern "C" fn usage_enable_number(track_usage: u32, total_cycles: u64, num_windows: u32) -> i32
    ensures { result ≡ (changed_says (enabled (usage_of track_usage total_cycles num_windows))).number }
{
    tickclock::thread::usage_enable_number(track_usage, total_cycles, num_windows)
}

#[unsafe(no_mangle)]
pub extern "C" fn usage_enable_track_usage(
    track_usage: u32,
    total_cycles: u64,
    num_windows: u32,
) -> u32
    ensures { result ≡ flag_of (changed_says (enabled (usage_of track_usage total_cycles num_windows))).value.track_usage }
{
    tickclock::thread::usage_enable_track_usage(track_usage, total_cycles, num_windows)
}

#[unsafe(no_mangle)]
pub extern "C" fn usage_enable_total_cycles(
    track_usage: u32,
    total_cycles: u64,
    num_windows: u32,
) -> u64
    ensures { result ≡ (changed_says (enabled (usage_of track_usage total_cycles num_windows))).value.total_cycles.0 }
{
    tickclock::thread::usage_enable_total_cycles(track_usage, total_cycles, num_windows)
}

#[unsafe(no_mangle)]
pub extern "C" fn usage_enable_num_windows(
    track_usage: u32,
    total_cycles: u64,
    num_windows: u32,
) -> u32
    ensures { result ≡ (changed_says (enabled (usage_of track_usage total_cycles num_windows))).value.num_windows }
{
    tickclock::thread::usage_enable_num_windows(track_usage, total_cycles, num_windows)
}

#[unsafe(no_mangle)]
pub extern "C" fn usage_disable_number(track_usage: u32, total_cycles: u64, num_windows: u32) -> i32
    ensures { result ≡ (changed_says (disabled (usage_of track_usage total_cycles num_windows))).number }
{
    tickclock::thread::usage_disable_number(track_usage, total_cycles, num_windows)
}

#[unsafe(no_mangle)]
pub extern "C" fn usage_disable_track_usage(
    track_usage: u32,
    total_cycles: u64,
    num_windows: u32,
) -> u32
    ensures { result ≡ flag_of (changed_says (disabled (usage_of track_usage total_cycles num_windows))).value.track_usage }
{
    tickclock::thread::usage_disable_track_usage(track_usage, total_cycles, num_windows)
}

#[unsafe(no_mangle)]
pub extern "C" fn usage_disable_total_cycles(
    track_usage: u32,
    total_cycles: u64,
    num_windows: u32,
) -> u64
    ensures { result ≡ (changed_says (disabled (usage_of track_usage total_cycles num_windows))).value.total_cycles.0 }
{
    tickclock::thread::usage_disable_total_cycles(track_usage, total_cycles, num_windows)
}

#[unsafe(no_mangle)]
pub extern "C" fn usage_disable_num_windows(
    track_usage: u32,
    total_cycles: u64,
    num_windows: u32,
) -> u32
    ensures { result ≡ (changed_says (disabled (usage_of track_usage total_cycles num_windows))).value.num_windows }
{
    tickclock::thread::usage_disable_num_windows(track_usage, total_cycles, num_windows)
}

#[unsafe(no_mangle)]
pub extern "C" fn usage_accumulate_number(
    track_usage: u32,
    total_cycles: u64,
    num_windows: u32,
    cycles: u32,
) -> i32
    ensures { result ≡ (changed_says (accumulated (usage_of track_usage total_cycles num_windows) cycles)).number }
{
    tickclock::thread::usage_accumulate_number(track_usage, total_cycles, num_windows, cycles)
}

#[unsafe(no_mangle)]
pub extern "C" fn usage_accumulate_track_usage(
    track_usage: u32,
    total_cycles: u64,
    num_windows: u32,
    cycles: u32,
) -> u32
    ensures { result ≡ flag_of (changed_says (accumulated (usage_of track_usage total_cycles num_windows) cycles)).value.track_usage }
{
    tickclock::thread::usage_accumulate_track_usage(track_usage, total_cycles, num_windows, cycles)
}

#[unsafe(no_mangle)]
pub extern "C" fn usage_accumulate_total_cycles(
    track_usage: u32,
    total_cycles: u64,
    num_windows: u32,
    cycles: u32,
) -> u64
    ensures { result ≡ (changed_says (accumulated (usage_of track_usage total_cycles num_windows) cycles)).value.total_cycles.0 }
{
    tickclock::thread::usage_accumulate_total_cycles(track_usage, total_cycles, num_windows, cycles)
}

#[unsafe(no_mangle)]
pub extern "C" fn usage_accumulate_num_windows(
    track_usage: u32,
    total_cycles: u64,
    num_windows: u32,
    cycles: u32,
) -> u32
    ensures { result ≡ (changed_says (accumulated (usage_of track_usage total_cycles num_windows) cycles)).value.num_windows }
{
    tickclock::thread::usage_accumulate_num_windows(track_usage, total_cycles, num_windows, cycles)
}

#[unsafe(no_mangle)]
pub extern "C" fn usage_average_cycles_number(total_cycles: u64, num_windows: u32) -> i32
    ensures { result ≡ ok }
{
    tickclock::thread::usage_average_cycles_number(total_cycles, num_windows)
}

#[unsafe(no_mangle)]
pub extern "C" fn usage_average_cycles_cycles(total_cycles: u64, num_windows: u32) -> u64
    ensures { result ≡ (average_cycles (record { 0 = total_cycles }) num_windows).0 }
{
    tickclock::thread::usage_average_cycles_cycles(total_cycles, num_windows)
}

#[unsafe(no_mangle)]
pub extern "C" fn usage_elapsed_cycles_number(now: u32, usage0: u32) -> i32
    ensures { result ≡ ok }
{
    tickclock::thread::usage_elapsed_cycles_number(now, usage0)
}

#[unsafe(no_mangle)]
pub extern "C" fn usage_elapsed_cycles_cycles(now: u32, usage0: u32) -> u32
    ensures { result ≡ elapsed_stamps now usage0 }
{
    tickclock::thread::usage_elapsed_cycles_cycles(now, usage0)
}

#[unsafe(no_mangle)]
pub extern "C" fn usage_is_tracked_number(
    track_usage: u32,
    total_cycles: u64,
    num_windows: u32,
) -> i32
    ensures { result ≡ ok }
{
    tickclock::thread::usage_is_tracked_number(track_usage, total_cycles, num_windows)
}

#[unsafe(no_mangle)]
pub extern "C" fn usage_is_tracked_tracked(
    track_usage: u32,
    total_cycles: u64,
    num_windows: u32,
) -> u32
    ensures { result ≡ flag_of (usage_of track_usage total_cycles num_windows).track_usage }
{
    tickclock::thread::usage_is_tracked_tracked(track_usage, total_cycles, num_windows)
}

#[unsafe(no_mangle)]
pub extern "C" fn usage_new_idle_number() -> i32
    ensures { result ≡ ok }
{
    tickclock::thread::usage_new_idle_number()
}

#[unsafe(no_mangle)]
pub extern "C" fn usage_new_idle_track_usage() -> u32
    ensures { result ≡ flag_of new_idle.track_usage }
{
    tickclock::thread::usage_new_idle_track_usage()
}

#[unsafe(no_mangle)]
pub extern "C" fn usage_new_idle_total_cycles() -> u64
    ensures { result ≡ new_idle.total_cycles.0 }
{
    tickclock::thread::usage_new_idle_total_cycles()
}

#[unsafe(no_mangle)]
pub extern "C" fn usage_new_idle_num_windows() -> u32
    ensures { result ≡ new_idle.num_windows }
{
    tickclock::thread::usage_new_idle_num_windows()
}

#[unsafe(no_mangle)]
pub extern "C" fn usage_sys_enable_decide_number(current_tracking: u32) -> i32
    ensures { result ≡ ok }
{
    tickclock::thread::usage_sys_enable_decide_number(current_tracking)
}

#[unsafe(no_mangle)]
pub extern "C" fn usage_sys_enable_decide_apply(current_tracking: u32) -> u32
    ensures { result ≡ flag_of (sys_track_says (sys_enable_decide (is_set current_tracking))).value }
{
    tickclock::thread::usage_sys_enable_decide_apply(current_tracking)
}

#[unsafe(no_mangle)]
pub extern "C" fn usage_sys_disable_decide_number(current_tracking: u32) -> i32
    ensures { result ≡ ok }
{
    tickclock::thread::usage_sys_disable_decide_number(current_tracking)
}

#[unsafe(no_mangle)]
pub extern "C" fn usage_sys_disable_decide_apply(current_tracking: u32) -> u32
    ensures { result ≡ flag_of (sys_track_says (sys_disable_decide (is_set current_tracking))).value }
{
    tickclock::thread::usage_sys_disable_decide_apply(current_tracking)
}

#[unsafe(no_mangle)]
pub extern "C" fn usage_start_decide_number(track_usage: u32) -> i32
    ensures { result ≡ ok }
{
    tickclock::thread::usage_start_decide_number(track_usage)
}

#[unsafe(no_mangle)]
pub extern "C" fn usage_start_decide_record_start(track_usage: u32) -> u32
    ensures { result ≡ flag_of (start_says (start_decide (is_set track_usage))).value }
{
    tickclock::thread::usage_start_decide_record_start(track_usage)
}

#[unsafe(no_mangle)]
pub extern "C" fn usage_stop_decide_number(usage0: u32) -> i32
    ensures { result ≡ ok }
{
    tickclock::thread::usage_stop_decide_number(usage0)
}

#[unsafe(no_mangle)]
pub extern "C" fn usage_stop_decide_accumulate(usage0: u32) -> u32
    ensures { result ≡ flag_of (stop_says (stop_decide usage0)).value }
{
    tickclock::thread::usage_stop_decide_accumulate(usage0)
}
