// 01's counter: the definition steps cycle by cycle, the code jumps.
#![tactic(auto)]

ghost use Rattle.std.specs.Prelude.{◌≡◌, ◌+◌, ◌≤◌};
ghost use Rattle.error.specs.Numbers.{max64};
ghost use Rattle.counter.specs.Cycle.{run_n, cleared};
ghost use Rattle.counter.specs.Entries.{started_of, ran_of, readings_of, value_of};
ghost use Rattle.counter.specs.Readings.{good_period, in_range, cycles_above, cycles_of};
ghost use Rattle.counter.specs.Valid.{Valid};

use error::Refusal;
use units::Cycles;

#[derive(Clone, Copy)]
pub struct Counter {
    // Cycles from wrap to wrap: 01's L.
    pub period: u32,
    // 01's v, from the period down to 1.
    pub value: u32,
    // Set at each wrap, cleared by being read.
    pub flag: bool,
    // Cycles run: 01's T.
    pub cycles: Cycles,
}

#[tactic(auto, unfolding(crate::specs::Readings::good_period))]
pub fn good_period(period: u32) -> bool
    ensures { result ≡ good_period period }
{
    (Counter::MIN_PERIOD <= period) & (period <= Counter::MAX_PERIOD)
}

// A counter as setup makes it: at its period, the flag clear, nothing run.
#[tactic(auto, unfolding(crate::specs::Entries::started_of))]
pub fn started(period: u32) -> Result<Counter, Refusal>
    ensures { result ≡ started_of period }
{
    if good_period(period) {
        return Ok(Counter {
            period: period,
            value: period,
            flag: false,
            cycles: Cycles(0),
        });
    }
    Err(Refusal::Invalid)
}

impl Counter {
    pub const MIN_PERIOD: u32 = 2;

    pub const MAX_PERIOD: u32 = 16777215;

    #[tactic(auto, unfolding(crate::specs::Readings::in_range))]
    pub fn in_range(self) -> bool
        ensures { result ≡ in_range self }
    {
        good_period(self.period) & (1 <= self.value) & (self.value <= self.period)
    }

    // Whether so many cycles more take T past 2^64 - 1, without a sum that might not fit.
    pub fn cycles_above(self, cycles: u64) -> bool
        ensures { result ≡ cycles_above self cycles }
    {
        let room = u64::MAX - cycles;
        room < self.cycles.0
    }

    // The counter after its flag was read.
    pub fn cleared(mut self) -> Counter
        ensures { result ≡ cleared self }
    {
        self.flag = false;
        self
    }
}

// n cycles at once. A division only where a wrap comes: what is left of n after the first wrap tells where the value
// ends.
fn advanced(counter: Counter, n: u32) -> Counter
    requires { Valid counter.period counter × (counter.cycles.0 + n ≤ max64) }
    ensures { result ≡ run_n n counter }
{
    let period = counter.period;
    let cycles = counter.cycles.0 + n as u64;
    if n < counter.value {
        let value = counter.value - n;
        return Counter {
            period: period,
            value: value,
            flag: counter.flag,
            cycles: Cycles(cycles),
        };
    }
    let after = n - counter.value;
    let over = after % period;
    let ended = period - over;
    Counter {
        period: period,
        value: ended,
        flag: true,
        cycles: Cycles(cycles),
    }
}

#[tactic(auto, unfolding(crate::specs::Entries::ran_of))]
pub fn run(counter: Counter, n: u32) -> Result<Counter, Refusal>
    ensures { result ≡ ran_of counter n }
{
    if counter.in_range() {
        if counter.cycles_above(n as u64) {
            return Err(Refusal::Overflow);
        }
        return Ok(advanced(counter, n));
    }
    Err(Refusal::Invalid)
}

// What a sample reads: the flag at B, the value at C, and the counter r cycles after C, before D.
#[derive(Clone, Copy)]
pub struct SampleReadings {
    pub flag: bool,
    pub value: u32,
    pub after: Counter,
}

// Cycles from A to B, from B to C, and from C to D.
#[derive(Clone, Copy)]
pub struct Gaps {
    pub p: u32,
    pub q: u32,
    pub r: u32,
}

impl Gaps {
    // All its cycles as one number: three of 32 bits can't pass 64.
    pub fn whole(self) -> u64
        ensures { result ≡ cycles_of self }
    {
        self.p as u64 + self.q as u64 + self.r as u64
    }
}

// A sample's readings: p cycles to B, whose reading clears the flag, q to C, and r more. All are tested first, so that
// nothing is refused once the flag is gone.
#[tactic(auto, unfolding(crate::specs::Entries::readings_of))]
pub fn readings(counter: Counter, gaps: Gaps) -> Result<SampleReadings, Refusal>
    ensures { result ≡ readings_of counter gaps.p gaps.q gaps.r }
{
    if counter.in_range() {
        if counter.cycles_above(gaps.whole()) {
            return Err(Refusal::Overflow);
        }
        let b = advanced(counter, gaps.p);
        let read = b.cleared();
        let c = advanced(read, gaps.q);
        return Ok(SampleReadings {
            flag: b.flag,
            value: c.value,
            after: advanced(c, gaps.r),
        });
    }
    Err(Refusal::Invalid)
}

// 01's v of what the value register holds: the register shows 0 for the one cycle in which v is the period.
#[tactic(auto, unfolding(crate::specs::Entries::value_of))]
pub fn value_of(raw: u32, load: u32) -> Result<u32, Refusal>
    ensures { result ≡ value_of raw load }
{
    if good_period(load) {
        if load <= raw {
            return Err(Refusal::Invalid);
        }
        if raw == 0 {
            return Ok(load);
        }
        return Ok(raw);
    }
    Err(Refusal::Invalid)
}
