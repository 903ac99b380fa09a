// What a record asks of the machine: each kind that changes the ledger is a sample and then one operation.
ghost use Rattle.std.specs.Prelude.{◌≡◌};
ghost use Rattle.books.specs.Running.{nothing_booked};
ghost use Rattle.table.specs.declared.tasks.Task.TheVariants as T;
ghost use Rattle.table.specs.declared.tasks.Then.TheVariants as W;
ghost use Rattle.table.specs.Task.{task_of, asked_by};

use books::{Books, Operation};
use clock::Gaps;
use trace::{Record, Setup};

// What follows a sample: it is told, or an operation of the ledger is entered at its reading.
#[derive(Clone, Copy)]
pub enum Then {
    Tell,
    Operate(Operation),
}

// What a record asks for. Each kind that changes the ledger is a sample and then one operation.
#[derive(Clone, Copy)]
pub enum Task {
    Run(u32),
    Sample(Gaps, Then),
    Announce,
    Report(u32),
    Setup(Setup),
}

// What of a task the table's rows look at; by default nothing.
#[derive(Clone, Copy, Default)]
pub struct Asked {
    // A setup, and one with a bad period or tick.
    pub setup: bool,
    pub bad: bool,
    // A thread past the table, and a start while one runs.
    pub past: bool,
    pub busy: bool,
    // It samples, and it runs so many cycles.
    pub samples: bool,
    pub cycles: u64,
}

#[tactic(auto, unfolding(crate::specs::Task::task_of))]
pub fn task_of(decoded: Record) -> Task
    ensures { result ≡ task_of decoded }
{
    match decoded {
        Record::Run(p) => Task::Run(p),
        Record::Sample(gaps) => Task::Sample(gaps, Then::Tell),
        Record::Announce => Task::Announce,
        Record::Start(thread, gaps) => Task::Sample(gaps, Then::Operate(Operation::Start(thread))),
        Record::Switch(thread, gaps) => Task::Sample(
            gaps,
            Then::Operate(Operation::Switch(thread)),
        ),
        Record::Stop(gaps) => Task::Sample(gaps, Then::Operate(Operation::Stop)),
        Record::Enable(thread, gaps) => Task::Sample(
            gaps,
            Then::Operate(Operation::Enable(thread)),
        ),
        Record::Disable(thread, gaps) => Task::Sample(
            gaps,
            Then::Operate(Operation::Disable(thread)),
        ),
        Record::Report(thread) => Task::Report(thread),
        Record::Setup(setup) => Task::Setup(setup),
    }
}

// Where a row looks at neither the books nor the table, the promise names books in which none runs and a table of no
// slots.
#[tactic(auto, unfolding(crate::specs::Task::asked_by))]
pub fn asks_nothing() -> Asked
    ensures { result ≡ asked_by nothing_booked 0 T.Announce }
{
    Asked::default()
}

#[tactic(auto, unfolding(crate::specs::Task::asked_by))]
pub fn asks_cycles(cycles: u64) -> Asked
    ensures { result ≡ asked_by nothing_booked 0 (T.Run cycles) }
{
    Asked {
        cycles,
        ..Asked::default()
    }
}

#[tactic(auto, unfolding(crate::specs::Task::asked_by))]
fn asks_sample(gaps: Gaps) -> Asked
    ensures { result ≡ asked_by nothing_booked 0 (T.Sample gaps W.Tell) }
{
    Asked {
        samples: true,
        cycles: gaps.whole(),
        ..Asked::default()
    }
}

#[tactic(auto, unfolding(crate::specs::Task::asked_by))]
fn asks_operation(books: Books, slots: usize, operation: Operation, gaps: Gaps) -> Asked
    ensures { result ≡ asked_by books slots (T.Sample gaps (W.Operate operation)) }
{
    Asked {
        past: books::past(operation, slots),
        busy: books::busy(books, operation),
        ..asks_sample(gaps)
    }
}

#[tactic(auto, unfolding(crate::specs::Task::asked_by))]
pub fn asks_then(books: Books, slots: usize, gaps: Gaps, then: Then) -> Asked
    ensures { result ≡ asked_by books slots (T.Sample gaps then) }
{
    match then {
        Then::Tell => asks_sample(gaps),
        Then::Operate(operation) => asks_operation(books, slots, operation, gaps),
    }
}

#[tactic(auto, unfolding(crate::specs::Task::asked_by))]
pub fn asks_report(slots: usize, thread: u32) -> Asked
    ensures { result ≡ asked_by nothing_booked slots (T.Report thread) }
{
    Asked {
        past: books::no_thread(slots, thread),
        ..Asked::default()
    }
}

// No bytes decode to a bad setup, but one can be handed in.
#[tactic(auto, unfolding(crate::specs::Task::asked_by))]
pub fn asks_setup(setup: Setup) -> Asked
    ensures { result ≡ asked_by nothing_booked 0 (T.Setup setup) }
{
    Asked {
        setup: true,
        bad: clock::bad_setup(setup.period, setup.tick),
        ..Asked::default()
    }
}
