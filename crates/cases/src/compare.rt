// Our leaves against upstream's answers, a function for each: the columns of a row are its inputs and then its answers.
use error::Refusal;
use units::{Cycles, Ticks};
use usage::ThreadUsage;

pub(crate) fn elapsed_cycles(columns: &[u64]) -> Option<bool> {
    let &[last_count, current_count, load, cycles] = columns else {
        return None;
    };
    let ours = systick::elapsed_cycles(word(last_count)?, word(current_count)?, word(load)?);
    Some((error::number(ours), u64::from(ours.unwrap_or(0))) == (error::OK, cycles))
}

pub(crate) fn cycles_to_ticks(columns: &[u64]) -> Option<bool> {
    let &[cycles, cycles_per_tick, present, ticks] = columns else {
        return None;
    };
    let cycles_per_tick = word(cycles_per_tick)?;
    let number = number_for(flag(present)?, cycles_per_tick);
    let ours = systick::cycles_to_ticks(Cycles(cycles), cycles_per_tick);
    Some((error::number(ours), ours.map_or(0, |ticks| ticks.0)) == (number, ticks))
}

pub(crate) fn ticks_to_cycles(columns: &[u64]) -> Option<bool> {
    let &[ticks, cycles_per_tick, present, cycles] = columns else {
        return None;
    };
    let cycles_per_tick = word(cycles_per_tick)?;
    let number = number_for(flag(present)?, cycles_per_tick);
    let ours = systick::ticks_to_cycles(Ticks(ticks), cycles_per_tick);
    Some((error::number(ours), ours.map_or(0, |cycles| cycles.0)) == (number, cycles))
}

pub(crate) fn max_ticks(columns: &[u64]) -> Option<bool> {
    let &[cycles_per_tick, present, ticks] = columns else {
        return None;
    };
    let cycles_per_tick = word(cycles_per_tick)?;
    let number = number_for(flag(present)?, cycles_per_tick);
    let ours = systick::max_ticks(cycles_per_tick);
    Some((error::number(ours), ours.map_or(0, |ticks| ticks.0)) == (number, ticks))
}

pub(crate) fn elapsed_decide(columns: &[u64]) -> Option<bool> {
    let &[
        val1,
        val2,
        countflag,
        load,
        overflow_cyc,
        wrap_detected,
        new_overflow_cyc,
        elapsed,
    ] = columns
    else {
        return None;
    };
    let ours = systick::elapsed_decide(
        word(val1)?,
        word(val2)?,
        flag(countflag)?,
        word(load)?,
        word(overflow_cyc)?,
    );
    let answers = ours.map_or([0; 3], |decided| {
        [
            u64::from(decided.wrap_detected),
            u64::from(decided.new_overflow_cyc),
            u64::from(decided.elapsed),
        ]
    });
    Some((error::number(ours), answers) == (error::OK, [wrap_detected, new_overflow_cyc, elapsed]))
}

pub(crate) fn announce_decide(columns: &[u64]) -> Option<bool> {
    let &[
        cycle_count,
        announced,
        overflow_cyc,
        cycles_per_tick,
        present,
        dticks,
        new_cycle_count,
        new_announced,
    ] = columns
    else {
        return None;
    };
    let cycles_per_tick = word(cycles_per_tick)?;
    let number = number_for(flag(present)?, cycles_per_tick);
    let ours = systick::announce_decide(
        Cycles(cycle_count),
        Cycles(announced),
        word(overflow_cyc)?,
        cycles_per_tick,
    );
    let answers = ours.map_or([0; 3], |decided| {
        [
            decided.dticks.0,
            decided.new_cycle_count.0,
            decided.new_announced_cycles.0,
        ]
    });
    Some((error::number(ours), answers) == (number, [dticks, new_cycle_count, new_announced]))
}

pub(crate) fn new_idle(columns: &[u64]) -> Option<bool> {
    let &[tracked, total, windows] = columns else {
        return None;
    };
    Some(record_columns(ThreadUsage::new_idle()) == [tracked, total, windows])
}

pub(crate) fn is_tracked(columns: &[u64]) -> Option<bool> {
    let &[tracked, total, windows, is_tracked] = columns else {
        return None;
    };
    let ours = usage::is_tracked(record(tracked, total, windows)?);
    Some(u64::from(ours) == is_tracked)
}

pub(crate) fn enable(columns: &[u64]) -> Option<bool> {
    let (before, after) = columns.split_at_checked(3)?;
    changed(before, after, |ours| ours.enable())
}

pub(crate) fn disable(columns: &[u64]) -> Option<bool> {
    let (before, after) = columns.split_at_checked(3)?;
    changed(before, after, |ours| ours.disable())
}

pub(crate) fn accumulate(columns: &[u64]) -> Option<bool> {
    let (before, rest) = columns.split_at_checked(3)?;
    let (cycles, after) = rest.split_first()?;
    let cycles = word(*cycles)?;
    changed(before, after, |ours| ours.accumulate(cycles))
}

pub(crate) fn sys_enable_decide(columns: &[u64]) -> Option<bool> {
    decided(columns, |tracking| {
        Some(usage::sys_enable_decide(flag(tracking)?).is_apply())
    })
}

pub(crate) fn sys_disable_decide(columns: &[u64]) -> Option<bool> {
    decided(columns, |tracking| {
        Some(usage::sys_disable_decide(flag(tracking)?).is_apply())
    })
}

pub(crate) fn start_decide(columns: &[u64]) -> Option<bool> {
    decided(columns, |tracking| {
        Some(usage::start_decide(flag(tracking)?).is_record_start())
    })
}

pub(crate) fn stop_decide(columns: &[u64]) -> Option<bool> {
    decided(columns, |usage0| {
        Some(usage::stop_decide(word(usage0)?).is_accumulate())
    })
}

pub(crate) fn average_cycles(columns: &[u64]) -> Option<bool> {
    let &[total, windows, average] = columns else {
        return None;
    };
    let ours = usage::average_cycles(Cycles(total), word(windows)?);
    Some(ours.0 == average)
}

pub(crate) fn usage_elapsed_cycles(columns: &[u64]) -> Option<bool> {
    let &[now, usage0, elapsed] = columns else {
        return None;
    };
    let ours = usage::elapsed_cycles(word(now)?, word(usage0)?);
    Some(u64::from(ours) == elapsed)
}

// A record before the change, and the code and the record after it.
fn changed<F>(before: &[u64], after: &[u64], change: F) -> Option<bool>
where
    F: FnOnce(&mut ThreadUsage) -> Result<(), Refusal>,
    requires { F.IsAlwaysCallable change }
{
    let &[tracked, total, windows] = before else {
        return None;
    };
    let &[code, new_tracked, new_total, new_windows] = after else {
        return None;
    };
    let mut ours = record(tracked, total, windows)?;
    let answer = change(&mut ours);
    Some(outcome_columns(answer, ours) == (code, [new_tracked, new_total, new_windows]))
}

// One input, and a decision that is yes or no, as 1 or 0.
fn decided<F: FnOnce(u64) -> Option<bool>>(columns: &[u64], decide: F) -> Option<bool>
    requires { F.IsAlwaysCallable decide }
{
    let &[input, decision] = columns else {
        return None;
    };
    let ours = decide(input)?;
    Some(u64::from(ours) == decision)
}

// The number that ours must give, where upstream has an Option: its None says nothing of the reason.
fn number_for(present: bool, cycles_per_tick: u32) -> i32 {
    match (present, cycles_per_tick) {
        (true, _) => error::OK,
        (false, 0) => error::EINVAL,
        (false, _) => error::EOVERFLOW,
    }
}

// As the list has them: the code without its sign, and the record.
fn outcome_columns(answer: Result<(), Refusal>, after: ThreadUsage) -> (u64, [u64; 3]) {
    (
        u64::from(error::number(answer).unsigned_abs()),
        record_columns(after),
    )
}

fn record_columns(ours: ThreadUsage) -> [u64; 3] {
    [
        u64::from(ours.track_usage),
        ours.total_cycles.0,
        u64::from(ours.num_windows),
    ]
}

fn record(tracked: u64, total: u64, windows: u64) -> Option<ThreadUsage> {
    Some(ThreadUsage {
        track_usage: flag(tracked)?,
        total_cycles: Cycles(total),
        num_windows: word(windows)?,
    })
}

// Named for its many calls: it is u32::try_from, with None for a column that is too large.
fn word(column: u64) -> Option<u32> {
    u32::try_from(column).ok()
}

// std has no bool::try_from(u64): 0 and 1 are the columns that say no and yes.
fn flag(column: u64) -> Option<bool> {
    match column {
        0 => Some(false),
        1 => Some(true),
        _ => None,
    }
}
