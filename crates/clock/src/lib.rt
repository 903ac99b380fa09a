// 01's clock over the counter: setup, a sample and an announcement, each tested before anything is touched.
#![tactic(auto)]

ghost use Rattle.std.specs.Prelude.{◌≡◌, cond, ◌+◌, ◌≤◌, leb, Ok};
ghost use Rattle.counter.specs.Cycle.{cleared};
ghost use Rattle.clock.specs.Timer.{bad_setup, accounted_for, well_formed};
ghost use Rattle.clock.specs.Entries.{set_up, sample_of, Ready};
ghost use Rattle.clock.specs.Sample.{crowded, sample_value, taken_from};
ghost use Rattle.clock.specs.Announce.{announce_of, announcement_from};

use counter::Counter;
pub use counter::Gaps;
use error::Refusal;
use systick::{AnnounceDecideResult, ElapsedDecideResult};
use units::{Cycles, Ticks};

#[derive(Clone, Copy)]
pub struct Clock {
    // Cycles of a tick.
    pub tick: u32,
    // Cycles counted at the last announcement.
    pub count: Cycles,
    // Of those, the cycles announced as ticks.
    pub announced: Cycles,
    // Whole periods seen since, in cycles.
    pub overflow: u32,
    // The last reading.
    pub last: Cycles,
}

#[derive(Clone, Copy)]
pub struct Timer {
    pub counter: Counter,
    pub clock: Clock,
}

#[derive(Clone, Copy)]
pub struct SampleTaken {
    pub elapsed: u32,
    pub wrap: bool,
    pub reading: Cycles,
    pub timer: Timer,
}

#[derive(Clone, Copy)]
pub struct Announcement {
    pub dticks: Ticks,
    pub timer: Timer,
}

// Period and tick stand apart here and in `set_up`, as their statements have them (`TermsGiven`, `EntriesExact`).

// Whether a setup has a period out of range or no tick.
pub fn bad_setup(period: u32, tick: u32) -> bool
    ensures { result ≡ bad_setup period tick }
{
    !(counter::good_period(period) & (tick != 0))
}

#[tactic(auto, unfolding(crate::specs::Entries::set_up, counter::specs::Entries::started_of))]
pub fn set_up(period: u32, tick: u32) -> Result<Timer, Refusal>
    ensures { result ≡ set_up period tick }
{
    if bad_setup(period, tick) {
        return Err(Refusal::Invalid);
    }
    let counter = counter::started(period)?;
    // Its zeros are written out, as document 01 does.
    let clock = Clock {
        tick: tick,
        count: Cycles(0),
        announced: Cycles(0),
        overflow: 0,
        last: Cycles(0),
    };
    Ok(Timer {
        counter: counter,
        clock: clock,
    })
}

// a + b <= limit, where the sum may not fit.
fn sum_within(a: u64, b: u64, limit: u64) -> bool
    ensures { result ≡ leb (a + b) limit }
{
    if b <= limit {
        let room = limit - b;
        return a <= room;
    }
    false
}

// A flag that is still set stands for a period that is not counted yet.
fn flag_cycles(flag: bool, period: u32) -> u32
    ensures { result ≡ cond flag period 0 }
{
    if flag { period } else { 0 }
}

// Whether what is accounted for is not above T.
fn behind(timer: Timer) -> bool
    requires { timer.counter.value ≤ timer.counter.period }
    ensures { result ≡ leb (accounted_for timer) timer.counter.cycles.0 }
{
    let counter = timer.counter;
    let clock = timer.clock;
    let since = counter.period - counter.value;
    let pending = flag_cycles(counter.flag, counter.period);
    let part = clock.overflow as u64 + since as u64 + pending as u64;
    sum_within(clock.count.0, part, counter.cycles.0)
}

#[tactic(auto, using(counter::proofs::Outcomes::valid_of), unfolding(crate::specs::Timer::well_formed))]
pub fn well_formed(timer: Timer) -> bool
    ensures { result ≡ well_formed timer }
{
    let counter = timer.counter;
    let clock = timer.clock;
    if counter.in_range() {
        let not_ahead = behind(timer);
        return (1 <= clock.tick) & not_ahead;
    }
    false
}

// Whether overflow + 2L - 1 passes 2^32 - 1; one is added on both sides, since a state handed in may have no L.
pub fn crowded(timer: Timer) -> bool
    ensures { result ≡ crowded timer }
{
    let twice = 2 * (timer.counter.period as u64);
    let most = timer.clock.overflow as u64 + twice;
    4294967296 < most
}

// D: on a wrap the flag is read again only to clear it, so that the next sample does not see it.
fn settled(wrap: bool, counter: Counter) -> Counter
    ensures { result ≡ cond wrap (cleared counter) counter }
{
    if wrap { counter.cleared() } else { counter }
}

// What a sample answers, and the state that it leaves.
fn sample_taken(clock: Clock, d: ElapsedDecideResult, reading: u64, counter: Counter) -> SampleTaken
    ensures { result ≡ taken_from clock d reading counter }
{
    let read = Cycles(reading);
    let mut after = clock;
    after.overflow = d.new_overflow_cyc;
    after.last = read;
    SampleTaken {
        elapsed: d.elapsed,
        wrap: d.wrap_detected,
        reading: read,
        timer: Timer {
            counter: counter,
            clock: after,
        },
    }
}

// A to D. The tests before it leave no refusal: each is handed on all the same, and proved not to come.
#[tactic(auto, using(crate::proofs::Sampling::reads, crate::proofs::Sampling::from_read, crate::proofs::Sampling::sum_fits, crate::proofs::Sampling::taken_is))]
fn taken(timer: Timer, gaps: Gaps) -> Result<SampleTaken, Refusal>
    requires { Ready timer gaps }
    ensures { result ≡ Ok (sample_value timer gaps) }
{
    let a = timer.counter;
    let clock = timer.clock;
    let read = counter::readings(a, gaps)?;
    let d = systick::elapsed_decide(a.value, read.value, read.flag, a.period, clock.overflow)?;
    let reading = clock.count.0 + d.elapsed as u64;
    Ok(sample_taken(clock, d, reading, settled(d.wrap_detected, read.after)))
}

#[tactic(auto, using(crate::proofs::Outcomes::ready), unfolding(crate::specs::Entries::sample_of))]
pub fn sample(timer: Timer, gaps: Gaps) -> Result<SampleTaken, Refusal>
    ensures { result ≡ sample_of timer gaps }
{
    if well_formed(timer) {
        let counter = timer.counter;
        if crowded(timer) {
            return Err(Refusal::Again);
        }
        if counter.cycles_above(gaps.whole()) {
            return Err(Refusal::Overflow);
        }
        return taken(timer, gaps);
    }
    Err(Refusal::Invalid)
}

// What an announcement answers, and the state that it leaves.
fn announcement_made(timer: Timer, d: AnnounceDecideResult) -> Announcement
    ensures { result ≡ announcement_from timer d }
{
    let counter = timer.counter;
    let clock = timer.clock;
    let count = d.new_cycle_count;
    let announced = d.new_announced_cycles;
    let dticks = d.dticks;
    let mut after = clock;
    after.count = count;
    after.announced = announced;
    after.overflow = 0;
    Announcement {
        dticks: dticks,
        timer: Timer {
            counter: counter,
            clock: after,
        },
    }
}

#[tactic(auto, unfolding(crate::specs::Announce::announce_of, systick::specs::Leaves::announce_decide))]
pub fn announce(timer: Timer) -> Result<Announcement, Refusal>
    ensures { result ≡ announce_of timer }
{
    if well_formed(timer) {
        let clock = timer.clock;
        let count = clock.count;
        let announced = clock.announced;
        let d = systick::announce_decide(count, announced, clock.overflow, clock.tick)?;
        return Ok(announcement_made(timer, d));
    }
    Err(Refusal::Invalid)
}
