// The timer's leaves: upstream's systick.rs on any numbers, each refusing for itself. Sums and products are tested
// before they are made, as document 01 has it.
#![tactic(auto)]

ghost use Rattle.std.specs.Prelude.{◌≡◌};
ghost use Rattle.systick.specs.Leaves.{elapsed_cycles, cycles_to_ticks, ticks_to_cycles, max_ticks, elapsed_decide, announce_decide};

use error::Refusal;
use units::{Cycles, Ticks};

// The largest value that the timer's 24-bit register holds.
pub const SYSTICK_MAX_LOAD: u32 = 16777215;

// Cycles between two values of a timer that counts down, with at most one wrap between them.
#[tactic(auto, unfolding(crate::specs::Leaves::elapsed_cycles))]
pub fn elapsed_cycles(last_count: u32, current_count: u32, load: u32) -> Result<u32, Refusal>
    ensures { result ≡ elapsed_cycles last_count current_count load }
{
    if load < last_count {
        return Err(Refusal::Invalid);
    }
    if load < current_count {
        return Err(Refusal::Invalid);
    }
    if last_count >= current_count {
        Ok(last_count - current_count)
    } else {
        // The way from last_count down to the wrap, then from load down to current_count.
        let after_wrap = load - current_count;
        Ok(last_count + after_wrap)
    }
}

// The whole ticks within a number of cycles.
#[tactic(auto, unfolding(crate::specs::Leaves::cycles_to_ticks))]
pub fn cycles_to_ticks(cycles: Cycles, cycles_per_tick: u32) -> Result<Ticks, Refusal>
    ensures { result ≡ cycles_to_ticks cycles cycles_per_tick }
{
    let cpt = cycles_per_tick as u64;
    let ticks = cycles.0.checked_div(cpt).ok_or(Refusal::Invalid)?;
    Ok(Ticks(ticks))
}

// The cycles of a number of ticks.
#[tactic(auto, unfolding(crate::specs::Leaves::ticks_to_cycles))]
pub fn ticks_to_cycles(ticks: Ticks, cycles_per_tick: u32) -> Result<Cycles, Refusal>
    ensures { result ≡ ticks_to_cycles ticks cycles_per_tick }
{
    if cycles_per_tick == 0 {
        return Ok(Cycles(0));
    }
    let cpt = cycles_per_tick as u64;
    // Tested by the quotient, since the product itself may not fit.
    let most = u64::MAX / cpt;
    if most < ticks.0 {
        return Err(Refusal::Overflow);
    }
    let cycles = ticks.0 * cpt;
    Ok(Cycles(cycles))
}

// The most ticks that may be programmed at once: one fewer than the register holds whole.
#[tactic(auto, unfolding(crate::specs::Leaves::max_ticks))]
pub fn max_ticks(cycles_per_tick: u32) -> Result<Ticks, Refusal>
    ensures { result ≡ max_ticks cycles_per_tick }
{
    if cycles_per_tick == 0 {
        return Err(Refusal::Invalid);
    }
    let quotient = SYSTICK_MAX_LOAD / cycles_per_tick;
    if quotient == 0 {
        return Ok(Ticks(0));
    }
    let fewer = quotient - 1;
    let ticks = fewer as u64;
    Ok(Ticks(ticks))
}

// Zeros by default, as a refusal says.
#[derive(Clone, Copy, Default)]
pub struct ElapsedDecideResult {
    pub wrap_detected: bool,
    pub new_overflow_cyc: u32,
    pub elapsed: u32,
}

// Whether the timer wrapped, and the cycles since the count was last brought up to date.
#[tactic(auto, unfolding(crate::specs::Leaves::elapsed_decide))]
pub fn elapsed_decide(
    val1: u32,
    val2: u32,
    countflag: bool,
    load: u32,
    overflow_cyc: u32,
) -> Result<ElapsedDecideResult, Refusal>
    ensures { result ≡ elapsed_decide val1 val2 countflag load overflow_cyc }
{
    if load < val2 {
        return Err(Refusal::Invalid);
    }
    let base = load - val2;
    // Room for a wrap is asked for whether one comes or not, in 64 bits, which the sum can't pass.
    let most = base as u64 + overflow_cyc as u64 + load as u64;
    if 4294967295 < most {
        return Err(Refusal::Overflow);
    }
    let wrap_detected = countflag | (val1 < val2);
    let new_overflow_cyc = if wrap_detected {
        overflow_cyc + load
    } else {
        overflow_cyc
    };
    let elapsed = base + new_overflow_cyc;
    Ok(ElapsedDecideResult {
        wrap_detected: wrap_detected,
        new_overflow_cyc: new_overflow_cyc,
        elapsed: elapsed,
    })
}

#[derive(Clone, Copy, Default)]
pub struct AnnounceDecideResult {
    pub dticks: Ticks,
    pub new_cycle_count: Cycles,
    pub new_announced_cycles: Cycles,
}

// The whole ticks that have come since the last announcement, and the counts after it.
#[tactic(auto, unfolding(crate::specs::Leaves::announce_decide))]
pub fn announce_decide(
    cycle_count: Cycles,
    announced_cycles: Cycles,
    overflow_cyc: u32,
    cycles_per_tick: u32,
) -> Result<AnnounceDecideResult, Refusal>
    ensures { result ≡ announce_decide cycle_count announced_cycles overflow_cyc cycles_per_tick }
{
    if cycles_per_tick == 0 {
        return Err(Refusal::Invalid);
    }
    let overflow = overflow_cyc as u64;
    let room = u64::MAX - overflow;
    if room < cycle_count.0 {
        return Err(Refusal::Overflow);
    }
    let new_cc = cycle_count.0 + overflow;
    if new_cc < announced_cycles.0 {
        return Err(Refusal::Invalid);
    }
    let dcycles = new_cc - announced_cycles.0;
    let cpt = cycles_per_tick as u64;
    let dticks = dcycles / cpt;
    if 4294967295 < dticks {
        return Err(Refusal::Overflow);
    }
    let announced_add = dticks * cpt;
    let new_announced = announced_cycles.0 + announced_add;
    Ok(AnnounceDecideResult {
        dticks: Ticks(dticks),
        new_cycle_count: Cycles(new_cc),
        new_announced_cycles: Cycles(new_announced),
    })
}
