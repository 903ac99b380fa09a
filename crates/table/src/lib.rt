// 01's table of refusals: the tests that are made before the counter is touched, in its order, and what a step answers.
#![tactic(auto)]

ghost use Rattle.std.specs.Prelude.{◌≡◌};
ghost use Rattle.table.specs.Table.{refusal_of, malformed};
ghost use Rattle.table.specs.Change.{tested_of};
ghost use Rattle.table.specs.Says.{outcome_says};

use books::Books;
use clock::Timer;
use error::Refusal;
use tasks::Asked;

pub mod changes;
mod tasks;

// A machine without its thread records: what a record changes is worked out at the same cost for any number of them.
#[derive(Clone, Copy)]
pub struct Core {
    // No `Option` of what follows, since statements speak of the parts of what is not set up (`TableShown`).
    pub ready: bool,
    pub timer: Timer,
    pub books: Books,
}

// Why a record is turned away: one case for each row of 01's table, in its order, and the malformed state before them.
#[derive(Clone, Copy)]
pub enum Reason {
    Malformed,
    BadRecord,
    NotSetUp,
    SecondSetup,
    NoThread,
    Running,
    AnnounceFirst,
    CyclesAbove,
    // The leaf's own.
    NotAnnounced(Refusal),
    WontFit,
}

// What a record's line says after its number and code; zeros by default, as a refusal says.
#[derive(Clone, Copy, Default)]
pub struct Values {
    pub x: u64,
    pub y: u64,
}

#[tactic(auto, unfolding(crate::specs::Table::columns))]
impl Reason {
    // By its name, as `number`; and no `?` is to turn a row into its reason unseen.
    pub fn refusal(self) -> Refusal
        ensures { result ≡ refusal_of self }
    {
        match self {
            Reason::Malformed => Refusal::Invalid,
            Reason::BadRecord => Refusal::Invalid,
            Reason::NotSetUp => Refusal::Missing,
            Reason::SecondSetup => Refusal::Already,
            Reason::NoThread => Refusal::BadThread,
            Reason::Running => Refusal::Already,
            Reason::AnnounceFirst => Refusal::Again,
            Reason::CyclesAbove => Refusal::Overflow,
            Reason::NotAnnounced(why) => why,
            Reason::WontFit => Refusal::Overflow,
        }
    }
}

// The number of a step's outcome: 0 where the record was accepted, and else its row's.
#[tactic(auto, unfolding(crate::specs::Says::outcome_says))]
pub fn number(outcome: Result<Values, Reason>) -> i32
    ensures { result ≡ (outcome_says outcome).number }
{
    match outcome {
        Ok(_) => error::OK,
        Err(why) => why.refusal().number(),
    }
}

#[tactic(auto, unfolding(crate::specs::Table::malformed))]
pub fn malformed(core: Core, slots: usize) -> bool
    ensures { result ≡ malformed core slots }
{
    let timer = core.timer;
    let books = core.books;
    let formed = clock::well_formed(timer);
    let lost = books::unrecorded(books, slots);
    core.ready & (!formed | lost)
}

// 01's table, row by row: the first test that holds turns the record away, and nothing has been touched.
#[tactic(auto, unfolding(crate::specs::Change::tested_of))]
fn tested(core: Core, asked: Asked) -> Result<(), Reason>
    ensures { result ≡ tested_of core asked }
{
    let timer = core.timer;
    let counter = timer.counter;
    if asked.bad {
        return Err(Reason::BadRecord);
    }
    if !core.ready & !asked.setup {
        return Err(Reason::NotSetUp);
    }
    if core.ready & asked.setup {
        return Err(Reason::SecondSetup);
    }
    if asked.past {
        return Err(Reason::NoThread);
    }
    if asked.busy {
        return Err(Reason::Running);
    }
    if asked.samples & clock::crowded(timer) {
        return Err(Reason::AnnounceFirst);
    }
    if counter.cycles_above(asked.cycles) {
        return Err(Reason::CyclesAbove);
    }
    Ok(())
}
