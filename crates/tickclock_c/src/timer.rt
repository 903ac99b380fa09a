// The timer's leaves for C.
ghost use Rattle.std.specs.Prelude.{◌≡◌};
ghost use Rattle.systick.specs.Leaves.{elapsed_cycles, cycles_to_ticks, ticks_to_cycles, max_ticks, elapsed_decide, announce_decide};
ghost use Rattle.systick.specs.Says.{elapsed_cycles_says, cycles_to_ticks_says, ticks_to_cycles_says, max_ticks_says, elapsed_decide_says, announce_decide_says};
ghost use Rattle.counter.specs.Entries.{value_of};
ghost use Rattle.counter.specs.Says.{value_says};
ghost use Rattle.tickclock.specs.Plain.{is_set, flag_of};

#[unsafe(no_mangle)]
pub extern "C" fn systick_elapsed_cycles_number(
    last_count: u32,
    current_count: u32,
    load: u32,
) -> i32
    ensures { result ≡ (elapsed_cycles_says (elapsed_cycles last_count current_count load)).number }
{
    tickclock::timer::systick_elapsed_cycles_number(last_count, current_count, load)
}

#[unsafe(no_mangle)]
pub extern "C" fn systick_elapsed_cycles_cycles(
    last_count: u32,
    current_count: u32,
    load: u32,
) -> u32
    ensures { result ≡ (elapsed_cycles_says (elapsed_cycles last_count current_count load)).value }
{
    tickclock::timer::systick_elapsed_cycles_cycles(last_count, current_count, load)
}

#[unsafe(no_mangle)]
pub extern "C" fn systick_cycles_to_ticks_number(cycles: u64, cycles_per_tick: u32) -> i32
    ensures { result ≡ (cycles_to_ticks_says (cycles_to_ticks (record { 0 = cycles }) cycles_per_tick)).number }
{
    tickclock::timer::systick_cycles_to_ticks_number(cycles, cycles_per_tick)
}

#[unsafe(no_mangle)]
pub extern "C" fn systick_cycles_to_ticks_ticks(cycles: u64, cycles_per_tick: u32) -> u64
    ensures { result ≡ (cycles_to_ticks_says (cycles_to_ticks (record { 0 = cycles }) cycles_per_tick)).value.0 }
{
    tickclock::timer::systick_cycles_to_ticks_ticks(cycles, cycles_per_tick)
}

#[unsafe(no_mangle)]
pub extern "C" fn systick_ticks_to_cycles_number(ticks: u64, cycles_per_tick: u32) -> i32
    ensures { result ≡ (ticks_to_cycles_says (ticks_to_cycles (record { 0 = ticks }) cycles_per_tick)).number }
{
    tickclock::timer::systick_ticks_to_cycles_number(ticks, cycles_per_tick)
}

#[unsafe(no_mangle)]
pub extern "C" fn systick_ticks_to_cycles_cycles(ticks: u64, cycles_per_tick: u32) -> u64
    ensures { result ≡ (ticks_to_cycles_says (ticks_to_cycles (record { 0 = ticks }) cycles_per_tick)).value.0 }
{
    tickclock::timer::systick_ticks_to_cycles_cycles(ticks, cycles_per_tick)
}

#[unsafe(no_mangle)]
pub extern "C" fn systick_max_ticks_number(cycles_per_tick: u32) -> i32
    ensures { result ≡ (max_ticks_says (max_ticks cycles_per_tick)).number }
{
    tickclock::timer::systick_max_ticks_number(cycles_per_tick)
}

#[unsafe(no_mangle)]
pub extern "C" fn systick_max_ticks_ticks(cycles_per_tick: u32) -> u32
    ensures { result ≡ (max_ticks_says (max_ticks cycles_per_tick)).value.0 }
{
    tickclock::timer::systick_max_ticks_ticks(cycles_per_tick)
}

#[unsafe(no_mangle)]
pub extern "C" fn systick_elapsed_decide_number(
    val1: u32,
    val2: u32,
    countflag: u32,
    load: u32,
    overflow_cyc: u32,
) -> i32
    ensures { result ≡ (elapsed_decide_says (elapsed_decide val1 val2 (is_set countflag) load overflow_cyc)).number }
{
    tickclock::timer::systick_elapsed_decide_number(val1, val2, countflag, load, overflow_cyc)
}

#[unsafe(no_mangle)]
pub extern "C" fn systick_elapsed_decide_wrap_detected(
    val1: u32,
    val2: u32,
    countflag: u32,
    load: u32,
    overflow_cyc: u32,
) -> u32
    ensures { result ≡ flag_of (elapsed_decide_says (elapsed_decide val1 val2 (is_set countflag) load overflow_cyc)).value.wrap_detected }
{
    tickclock::timer::systick_elapsed_decide_wrap_detected(
        val1,
        val2,
        countflag,
        load,
        overflow_cyc,
    )
}

#[unsafe(no_mangle)]
pub extern "C" fn systick_elapsed_decide_new_overflow_cyc(
    val1: u32,
    val2: u32,
    countflag: u32,
    load: u32,
    overflow_cyc: u32,
) -> u32
    ensures { result ≡ (elapsed_decide_says (elapsed_decide val1 val2 (is_set countflag) load overflow_cyc)).value.new_overflow_cyc }
{
    tickclock::timer::systick_elapsed_decide_new_overflow_cyc(
        val1,
        val2,
        countflag,
        load,
        overflow_cyc,
    )
}

#[unsafe(no_mangle)]
pub extern "C" fn systick_elapsed_decide_elapsed(
    val1: u32,
    val2: u32,
    countflag: u32,
    load: u32,
    overflow_cyc: u32,
) -> u32
    ensures { result ≡ (elapsed_decide_says (elapsed_decide val1 val2 (is_set countflag) load overflow_cyc)).value.elapsed }
{
    tickclock::timer::systick_elapsed_decide_elapsed(val1, val2, countflag, load, overflow_cyc)
}

#[unsafe(no_mangle)]
pub extern "C" fn systick_announce_decide_number(
    cycle_count: u64,
    announced_cycles: u64,
    overflow_cyc: u32,
    cycles_per_tick: u32,
) -> i32
    ensures { result ≡ (announce_decide_says (announce_decide (record { 0 = cycle_count }) (record { 0 = announced_cycles }) overflow_cyc cycles_per_tick)).number }
{
    tickclock::timer::systick_announce_decide_number(
        cycle_count,
        announced_cycles,
        overflow_cyc,
        cycles_per_tick,
    )
}

#[unsafe(no_mangle)]
pub extern "C" fn systick_announce_decide_dticks(
    cycle_count: u64,
    announced_cycles: u64,
    overflow_cyc: u32,
    cycles_per_tick: u32,
) -> u32
    ensures { result ≡ (announce_decide_says (announce_decide (record { 0 = cycle_count }) (record { 0 = announced_cycles }) overflow_cyc cycles_per_tick)).value.dticks.0 }
{
    tickclock::timer::systick_announce_decide_dticks(
        cycle_count,
        announced_cycles,
        overflow_cyc,
        cycles_per_tick,
    )
}

#[unsafe(no_mangle)]
pub extern "C" fn systick_announce_decide_new_cycle_count(
    cycle_count: u64,
    announced_cycles: u64,
    overflow_cyc: u32,
    cycles_per_tick: u32,
) -> u64
    ensures { result ≡ (announce_decide_says (announce_decide (record { 0 = cycle_count }) (record { 0 = announced_cycles }) overflow_cyc cycles_per_tick)).value.new_cycle_count.0 }
{
    tickclock::timer::systick_announce_decide_new_cycle_count(
        cycle_count,
        announced_cycles,
        overflow_cyc,
        cycles_per_tick,
    )
}

#[unsafe(no_mangle)]
pub extern "C" fn systick_announce_decide_new_announced_cycles(
    cycle_count: u64,
    announced_cycles: u64,
    overflow_cyc: u32,
    cycles_per_tick: u32,
) -> u64
    ensures { result ≡ (announce_decide_says (announce_decide (record { 0 = cycle_count }) (record { 0 = announced_cycles }) overflow_cyc cycles_per_tick)).value.new_announced_cycles.0 }
{
    tickclock::timer::systick_announce_decide_new_announced_cycles(
        cycle_count,
        announced_cycles,
        overflow_cyc,
        cycles_per_tick,
    )
}

#[unsafe(no_mangle)]
pub extern "C" fn counter_value_number(raw: u32, load: u32) -> i32
    ensures { result ≡ (value_says (value_of raw load)).number }
{
    tickclock::timer::counter_value_number(raw, load)
}

#[unsafe(no_mangle)]
pub extern "C" fn counter_value_value(raw: u32, load: u32) -> u32
    ensures { result ≡ (value_says (value_of raw load)).value }
{
    tickclock::timer::counter_value_value(raw, load)
}
