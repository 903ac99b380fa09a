// The timer's leaves for C.
ghost use Rattle.std.specs.Prelude.{◌≡◌};
ghost use Rattle.systick.specs.Leaves.{elapsed_cycles, cycles_to_ticks, ticks_to_cycles, max_ticks, elapsed_decide, announce_decide};
ghost use Rattle.systick.specs.Says.{elapsed_cycles_says, cycles_to_ticks_says, ticks_to_cycles_says, max_ticks_says, elapsed_decide_says, announce_decide_says};
ghost use Rattle.counter.specs.Entries.{value_of};
ghost use Rattle.counter.specs.Says.{value_says};
ghost use Rattle.tickclock.specs.Plain.{is_set, flag_of};

use crate::plain;
use units::{Cycles, Ticks};

pub fn systick_elapsed_cycles_number(last_count: u32, current_count: u32, load: u32) -> i32
    ensures { result ≡ (elapsed_cycles_says (elapsed_cycles last_count current_count load)).number }
{
    error::number(systick::elapsed_cycles(last_count, current_count, load))
}

pub fn systick_elapsed_cycles_cycles(last_count: u32, current_count: u32, load: u32) -> u32
    ensures { result ≡ (elapsed_cycles_says (elapsed_cycles last_count current_count load)).value }
{
    systick::elapsed_cycles(last_count, current_count, load).unwrap_or_default()
}

pub fn systick_cycles_to_ticks_number(cycles: u64, cycles_per_tick: u32) -> i32
    ensures { result ≡ (cycles_to_ticks_says (cycles_to_ticks (record { 0 = cycles }) cycles_per_tick)).number }
{
    error::number(systick::cycles_to_ticks(Cycles(cycles), cycles_per_tick))
}

pub fn systick_cycles_to_ticks_ticks(cycles: u64, cycles_per_tick: u32) -> u64
    ensures { result ≡ (cycles_to_ticks_says (cycles_to_ticks (record { 0 = cycles }) cycles_per_tick)).value.0 }
{
    let ticks = systick::cycles_to_ticks(Cycles(cycles), cycles_per_tick).unwrap_or_default();
    ticks.0
}

pub fn systick_ticks_to_cycles_number(ticks: u64, cycles_per_tick: u32) -> i32
    ensures { result ≡ (ticks_to_cycles_says (ticks_to_cycles (record { 0 = ticks }) cycles_per_tick)).number }
{
    error::number(systick::ticks_to_cycles(Ticks(ticks), cycles_per_tick))
}

pub fn systick_ticks_to_cycles_cycles(ticks: u64, cycles_per_tick: u32) -> u64
    ensures { result ≡ (ticks_to_cycles_says (ticks_to_cycles (record { 0 = ticks }) cycles_per_tick)).value.0 }
{
    let cycles = systick::ticks_to_cycles(Ticks(ticks), cycles_per_tick).unwrap_or_default();
    cycles.0
}

pub fn systick_max_ticks_number(cycles_per_tick: u32) -> i32
    ensures { result ≡ (max_ticks_says (max_ticks cycles_per_tick)).number }
{
    error::number(systick::max_ticks(cycles_per_tick))
}

#[tactic(auto, using(systick::proofs::Widths::max_ticks_below))]
pub fn systick_max_ticks_ticks(cycles_per_tick: u32) -> u32
    ensures { result ≡ (max_ticks_says (max_ticks cycles_per_tick)).value.0 }
{
    let ticks = systick::max_ticks(cycles_per_tick).unwrap_or(Ticks(0));
    ticks.0 as u32
}

pub fn systick_elapsed_decide_number(
    val1: u32,
    val2: u32,
    countflag: u32,
    load: u32,
    overflow_cyc: u32,
) -> i32
    ensures { result ≡ (elapsed_decide_says (elapsed_decide val1 val2 (is_set countflag) load overflow_cyc)).number }
{
    let flag = plain::is_set(countflag);
    error::number(systick::elapsed_decide(val1, val2, flag, load, overflow_cyc))
}

pub fn systick_elapsed_decide_wrap_detected(
    val1: u32,
    val2: u32,
    countflag: u32,
    load: u32,
    overflow_cyc: u32,
) -> u32
    ensures { result ≡ flag_of (elapsed_decide_says (elapsed_decide val1 val2 (is_set countflag) load overflow_cyc)).value.wrap_detected }
{
    let flag = plain::is_set(countflag);
    let decided = systick::elapsed_decide(val1, val2, flag, load, overflow_cyc).unwrap_or_default();
    plain::flag_of(decided.wrap_detected)
}

pub fn systick_elapsed_decide_new_overflow_cyc(
    val1: u32,
    val2: u32,
    countflag: u32,
    load: u32,
    overflow_cyc: u32,
) -> u32
    ensures { result ≡ (elapsed_decide_says (elapsed_decide val1 val2 (is_set countflag) load overflow_cyc)).value.new_overflow_cyc }
{
    let flag = plain::is_set(countflag);
    let after = systick::elapsed_decide(val1, val2, flag, load, overflow_cyc).unwrap_or_default();
    after.new_overflow_cyc
}

pub fn systick_elapsed_decide_elapsed(
    val1: u32,
    val2: u32,
    countflag: u32,
    load: u32,
    overflow_cyc: u32,
) -> u32
    ensures { result ≡ (elapsed_decide_says (elapsed_decide val1 val2 (is_set countflag) load overflow_cyc)).value.elapsed }
{
    let flag = plain::is_set(countflag);
    systick::elapsed_decide(val1, val2, flag, load, overflow_cyc)
        .unwrap_or_default()
        .elapsed
}

pub fn systick_announce_decide_number(
    cycle_count: u64,
    announced_cycles: u64,
    overflow_cyc: u32,
    cycles_per_tick: u32,
) -> i32
    ensures { result ≡ (announce_decide_says (announce_decide (record { 0 = cycle_count }) (record { 0 = announced_cycles }) overflow_cyc cycles_per_tick)).number }
{
    let count = Cycles(cycle_count);
    let announced = Cycles(announced_cycles);
    error::number(systick::announce_decide(count, announced, overflow_cyc, cycles_per_tick))
}

#[tactic(auto, using(systick::proofs::Widths::dticks_of_accepted))]
pub fn systick_announce_decide_dticks(
    cycle_count: u64,
    announced_cycles: u64,
    overflow_cyc: u32,
    cycles_per_tick: u32,
) -> u32
    ensures { result ≡ (announce_decide_says (announce_decide (record { 0 = cycle_count }) (record { 0 = announced_cycles }) overflow_cyc cycles_per_tick)).value.dticks.0 }
{
    let count = Cycles(cycle_count);
    let announced = Cycles(announced_cycles);
    match systick::announce_decide(count, announced, overflow_cyc, cycles_per_tick) {
        Ok(decided) => decided.dticks.0 as u32,
        Err(_) => 0,
    }
}

pub fn systick_announce_decide_new_cycle_count(
    cycle_count: u64,
    announced_cycles: u64,
    overflow_cyc: u32,
    cycles_per_tick: u32,
) -> u64
    ensures { result ≡ (announce_decide_says (announce_decide (record { 0 = cycle_count }) (record { 0 = announced_cycles }) overflow_cyc cycles_per_tick)).value.new_cycle_count.0 }
{
    let count = Cycles(cycle_count);
    let announced = Cycles(announced_cycles);
    let decided = systick::announce_decide(
        count,
        announced,
        overflow_cyc,
        cycles_per_tick,
    ).unwrap_or_default();
    decided.new_cycle_count.0
}

pub fn systick_announce_decide_new_announced_cycles(
    cycle_count: u64,
    announced_cycles: u64,
    overflow_cyc: u32,
    cycles_per_tick: u32,
) -> u64
    ensures { result ≡ (announce_decide_says (announce_decide (record { 0 = cycle_count }) (record { 0 = announced_cycles }) overflow_cyc cycles_per_tick)).value.new_announced_cycles.0 }
{
    let count = Cycles(cycle_count);
    let announced = Cycles(announced_cycles);
    let decided = systick::announce_decide(
        count,
        announced,
        overflow_cyc,
        cycles_per_tick,
    ).unwrap_or_default();
    decided.new_announced_cycles.0
}

pub fn counter_value_number(raw: u32, load: u32) -> i32
    ensures { result ≡ (value_says (value_of raw load)).number }
{
    error::number(counter::value_of(raw, load))
}

pub fn counter_value_value(raw: u32, load: u32) -> u32
    ensures { result ≡ (value_says (value_of raw load)).value }
{
    counter::value_of(raw, load).unwrap_or_default()
}
