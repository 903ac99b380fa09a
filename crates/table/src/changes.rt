// What a record changes, or why it is turned away: each kind's tests by 01's table, and then its effect.
ghost use Rattle.std.specs.Prelude.{◌≡◌, Ok};
ghost use Rattle.trace.specs.Decode.{decode_of};
ghost use Rattle.table.specs.declared.tasks.Task.TheVariants as T;
ghost use Rattle.table.specs.Table.{malformed};
ghost use Rattle.table.specs.Change.{then_change, task_change, record_change, change_of};

use crate::tasks::{
    Task, Then, asks_cycles, asks_nothing, asks_report, asks_setup, asks_then, task_of,
};
use crate::{Core, Reason, Values, malformed, tested};
use books::Operation;
use clock::{Gaps, SampleTaken, Timer};
use counter::Counter;
use error::Refusal;
use trace::{Record, Setup};
use units::Cycles;

// What a record changes: only the parts of the state that are new.
#[derive(Clone, Copy)]
pub enum Change {
    Ran(Counter),
    // Counter and clock, with what there is to tell.
    Told(Timer, Values),
    // A sample, at whose reading an operation is to be entered.
    Enter(Timer, Operation, Cycles),
    // Nothing: a thread's record is asked for.
    Report(u32),
    // Set up just now.
    Fresh(Timer),
}

// The number of slots goes beside the core in all of these, and not into it: the core is the state, and the definitions
// and statements speak of the two apart (`change_of`, `ChangesExact`).

// Each kind makes the table's tests itself: then the compiler leaves out those that do not concern it. A run or a
// sample that they let through is turned away only where the state is malformed.
#[tactic(auto, unfolding(crate::specs::Change::task_change, crate::specs::Change::tested_of, crate::specs::Change::effect_change, crate::specs::Change::ran_change, crate::specs::Task::asked_by))]
fn run_change(core: Core, slots: usize, p: u32) -> Result<Change, Reason>
    ensures { result ≡ task_change core slots (T.Run p) }
{
    tested(core, asks_cycles(p as u64))?;
    let counter = counter::run(core.timer.counter, p).map_err(|_| Reason::Malformed)?;
    Ok(Change::Ran(counter))
}

// The sample stands, whatever becomes of the operation that is to follow it.
fn then_change(then: Then, taken: SampleTaken) -> Change
    ensures { Ok result ≡ then_change then taken }
{
    match then {
        Then::Tell => Change::Told(
            taken.timer,
            Values {
                x: taken.elapsed as u64,
                y: taken.wrap as u64,
            },
        ),
        Then::Operate(operation) => Change::Enter(taken.timer, operation, taken.reading),
    }
}

#[tactic(auto, unfolding(crate::specs::Change::task_change, crate::specs::Change::tested_of, crate::specs::Change::effect_change, crate::specs::Change::sampled_change, crate::specs::Task::asked_by))]
fn sample_change(core: Core, slots: usize, gaps: Gaps, then: Then) -> Result<Change, Reason>
    ensures { result ≡ task_change core slots (T.Sample gaps then) }
{
    tested(core, asks_then(core.books, slots, gaps, then))?;
    let taken = clock::sample(core.timer, gaps).map_err(|_| Reason::Malformed)?;
    Ok(then_change(then, taken))
}

#[tactic(auto, unfolding(crate::specs::Change::task_change, crate::specs::Change::tested_of, crate::specs::Change::effect_change, crate::specs::Change::announced_change, crate::specs::Task::asked_by))]
fn announce_change(core: Core, slots: usize) -> Result<Change, Reason>
    ensures { result ≡ task_change core slots T.Announce }
{
    tested(core, asks_nothing())?;
    let announcement = clock::announce(core.timer).map_err(Reason::NotAnnounced)?;
    let timer = announcement.timer;
    Ok(Change::Told(
        timer,
        Values {
            x: announcement.dticks.0,
            y: timer.clock.announced.0,
        },
    ))
}

#[tactic(auto, unfolding(crate::specs::Change::task_change, crate::specs::Change::tested_of, crate::specs::Change::effect_change, crate::specs::Task::asked_by))]
fn report_change(core: Core, slots: usize, thread: u32) -> Result<Change, Reason>
    ensures { result ≡ task_change core slots (T.Report thread) }
{
    tested(core, asks_report(slots, thread))?;
    Ok(Change::Report(thread))
}

#[tactic(auto, unfolding(crate::specs::Change::task_change, crate::specs::Change::tested_of, crate::specs::Change::effect_change, crate::specs::Change::set_up_change, crate::specs::Task::asked_by))]
fn setup_change(core: Core, slots: usize, setup: Setup) -> Result<Change, Reason>
    ensures { result ≡ task_change core slots (T.Setup setup) }
{
    tested(core, asks_setup(setup))?;
    let timer = clock::set_up(setup.period, setup.tick).map_err(|_| Reason::BadRecord)?;
    Ok(Change::Fresh(timer))
}

#[tactic(auto, unfolding(crate::specs::Change::task_change))]
fn task_change(core: Core, slots: usize, task: Task) -> Result<Change, Reason>
    ensures { result ≡ task_change core slots task }
{
    match task {
        Task::Run(p) => run_change(core, slots, p),
        Task::Sample(gaps, then) => sample_change(core, slots, gaps, then),
        Task::Announce => announce_change(core, slots),
        Task::Report(thread) => report_change(core, slots, thread),
        Task::Setup(setup) => setup_change(core, slots, setup),
    }
}

// What a decoded record changes. A malformed state turns every record away, and stays as it is.
#[tactic(auto, unfolding(crate::specs::Change::change_of, crate::specs::Change::record_change))]
pub fn change_of(
    core: Core,
    slots: usize,
    decoded: Result<Record, Refusal>,
) -> Result<Change, Reason>
    ensures { result ≡ change_of (malformed core slots) core slots decoded }
{
    if malformed(core, slots) {
        return Err(Reason::Malformed);
    }
    match decoded {
        Ok(accepted) => task_change(core, slots, task_of(accepted)),
        Err(_) => Err(Reason::BadRecord),
    }
}

// The record at a place of a trace. It is taken apart where it is decoded: handed on, it would be copied.
#[tactic(auto, unfolding(trace::specs::Decode::decode_of, crate::specs::Change::record_change))]
fn record_at(core: Core, slots: usize, trace: &[u8], at: usize) -> Result<Change, Reason>
    ensures { result ≡ record_change core slots (decode_of trace.now at) }
{
    match trace::decode(trace, at) {
        Ok(accepted) => task_change(core, slots, task_of(accepted)),
        Err(_) => Err(Reason::BadRecord),
    }
}

// What the record at a place of a trace changes. Whether the state is malformed is the caller's to ask: once for a
// trace, and not at every record, since no record makes it so.
#[tactic(auto, unfolding(crate::specs::Change::change_of))]
pub fn change_at(
    broken: bool,
    core: Core,
    slots: usize,
    trace: &[u8],
    at: usize,
) -> Result<Change, Reason>
    ensures { result ≡ change_of broken core slots (decode_of trace.now at) }
{
    if broken {
        return Err(Reason::Malformed);
    }
    record_at(core, slots, trace, at)
}
