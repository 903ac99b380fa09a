// 01's machine: one record's step over counter, clock and ledger.
#![tactic(auto)]

ghost use Rattle.std.specs.Prelude.{◌≡◌};
ghost use Rattle.machine.specs.Step.{core_of, machine_of, report_tells, step_of, fresh_machine};
ghost use Rattle.machine.specs.Making.{made_of};

use clock::{Clock, Timer};
use counter::Counter;
use error::Refusal;
use ledger::{Ledger, ThreadReport};
use table::changes::{Change, change_of};
use table::{Core, Reason, Values};
use trace::Record;
use units::Cycles;
use usage::ThreadUsage;

#[derive(Clone, Copy)]
pub struct Machine {
    // Whether it is set up; until then nothing else is looked at. It is no `Option` of the rest, since statements speak
    // of machines that are not set up and have parts all the same (`TableShown`).
    pub ready: bool,
    pub timer: Timer,
    pub ledger: Ledger,
}

#[derive(Clone, Copy)]
pub struct Stepped {
    pub outcome: Result<Values, Reason>,
    pub machine: Machine,
}

impl Machine {
    pub fn core(self) -> Core
        ensures { result ≡ core_of self }
    {
        Core {
            ready: self.ready,
            timer: self.timer,
            books: self.ledger.books,
        }
    }

    // A machine of these parts.
    pub fn of(core: Core, threads: [ThreadUsage; ThreadUsage::SLOTS]) -> Machine
        ensures { result ≡ machine_of core threads }
    {
        Machine {
            ready: core.ready,
            timer: core.timer,
            ledger: Ledger {
                books: core.books,
                threads,
            },
        }
    }
}

// A record's change, made in place to a machine whose parts are lent: what is not new stays as it is, and a refusal
// leaves all of it, but for a sample, which is kept whatever the ledger answers. The parts are lent one by one, so that
// the core can stay in registers from record to record.
#[tactic(auto, unfolding(crate::specs::Making::made_of, crate::specs::Making::operation_tells, crate::specs::Making::reported_by))]
pub fn make(
    core: &mut Core,
    threads: &mut [ThreadUsage; ThreadUsage::SLOTS],
    change: Result<Change, Reason>,
) -> Result<Values, Reason>
    ensures { record { outcome = result; machine = machine_of core.new threads.new } ≡ made_of (machine_of core.old threads.old) change }
{
    match change? {
        Change::Ran(counter) => {
            core.timer.counter = counter;
            Ok(Values { x: 0, y: 0 })
        }
        Change::Told(timer, values) => {
            core.timer = timer;
            Ok(values)
        }
        Change::Enter(timer, operation, reading) => {
            core.timer = timer;
            let answer = ledger::operate_on(&mut core.books, threads, reading, operation);
            let cycles = answer.map_err(|_| Reason::WontFit)?;
            Ok(Values {
                x: cycles as u64,
                y: 0,
            })
        }
        Change::Report(thread) => {
            let report = ledger::report_from(&core.books, threads, thread);
            Ok(report_values(report.map_err(|_| Reason::Malformed)?))
        }
        Change::Fresh(timer) => {
            *core = Core {
                ready: true,
                timer,
                books: books::nothing_booked(),
            };
            threads.fill(ThreadUsage::new_idle());
            Ok(Values { x: 0, y: 0 })
        }
    }
}

// What a report's line tells: total, average.
pub fn report_values(report: ThreadReport) -> Values
    ensures { result ≡ report_tells report }
{
    Values {
        x: report.total.0,
        y: report.average.0,
    }
}

// One record's step, the machine by value: what the record changes, worked out before anything is touched, and then the
// change made.
#[tactic(auto, using(crate::proofs::Tying::step_worked_out))]
pub fn step(machine: Machine, decoded: Result<Record, Refusal>) -> Stepped
    ensures { result ≡ step_of machine decoded }
{
    let mut core = machine.core();
    let mut threads = machine.ledger.threads;
    let change = change_of(core, ThreadUsage::SLOTS, decoded);
    let outcome = make(&mut core, &mut threads, change);
    Stepped {
        outcome,
        machine: Machine::of(core, threads),
    }
}

// A machine that is not set up: zeros, written out as the definition has them.
pub fn fresh() -> Machine
    ensures { result ≡ fresh_machine ThreadUsage.SLOTS }
{
    let zero = Cycles(0);
    Machine {
        ready: false,
        timer: Timer {
            counter: Counter {
                period: 0,
                value: 0,
                flag: false,
                cycles: zero,
            },
            clock: Clock {
                tick: 0,
                count: zero,
                announced: zero,
                overflow: 0,
                last: zero,
            },
        },
        ledger: ledger::fresh(),
    }
}
