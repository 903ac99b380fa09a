// 01's ledger: the books and a table of thread records, an operation on them, and what they tell of a thread.
#![tactic(auto)]

ghost use Rattle.std.specs.Prelude.{◌≡◌};
ghost use Rattle.ledger.specs.Operate.{ledger_of, operate_of, report_of};
ghost use Rattle.ledger.specs.Records.{fresh_ledger, report_value};

use books::{Books, Operation};
use error::Refusal;
use units::Cycles;
use usage::ThreadUsage;

#[derive(Clone, Copy)]
pub struct Ledger {
    pub books: Books,
    pub threads: [ThreadUsage; ThreadUsage::SLOTS],
}

#[derive(Clone, Copy)]
pub struct Ledgered {
    pub answer: Result<u32, Refusal>,
    pub ledger: Ledger,
}

#[derive(Clone, Copy)]
pub struct ThreadReport {
    pub total: Cycles,
    pub average: Cycles,
}

impl ThreadReport {
    // What there is to report of a thread, by its record.
    pub fn of(usage: ThreadUsage) -> ThreadReport
        ensures { result ≡ report_value usage }
    {
        let total = usage.total_cycles;
        ThreadReport {
            total: total,
            average: usage::average_cycles(total, usage.num_windows),
        }
    }
}

// An operation in place, over books and thread records that are lent: at most one record is read and written. A refusal
// leaves all as it was.
#[tactic(auto, using(crate::proofs::Operating::within, crate::proofs::Operating::storing), unfolding(crate::specs::Operate::operate_of, crate::specs::Operate::stored_in))]
pub fn operate_on(
    books: &mut Books,
    threads: &mut [ThreadUsage; ThreadUsage::SLOTS],
    reading: Cycles,
    operation: Operation,
) -> Result<u32, Refusal>
    ensures { record { answer = result; ledger = ledger_of books.new threads.new } ≡ operate_of (ledger_of books.old threads.old) reading operation }
{
    if books::unrecorded(*books, ThreadUsage::SLOTS) {
        return Err(Refusal::Invalid);
    }
    if books::past(operation, ThreadUsage::SLOTS) {
        return Err(Refusal::BadThread);
    }
    if books::busy(*books, operation) {
        return Err(Refusal::Already);
    }
    let k = books::concerned(*books, operation) as usize;
    let entry = books::enter(*books, threads[k], reading, operation)?;
    *books = entry.books;
    threads[k] = entry.usage;
    Ok(entry.cycles)
}

#[tactic(auto, unfolding(crate::specs::Operate::report_of))]
pub fn report_from(
    books: &Books,
    threads: &[ThreadUsage; ThreadUsage::SLOTS],
    thread: u32,
) -> Result<ThreadReport, Refusal>
    ensures { result ≡ report_of (ledger_of books.now threads.now) thread }
{
    if books::unrecorded(*books, ThreadUsage::SLOTS) {
        return Err(Refusal::Invalid);
    }
    if books::no_thread(ThreadUsage::SLOTS, thread) {
        return Err(Refusal::BadThread);
    }
    let k = thread as usize;
    Ok(ThreadReport::of(threads[k]))
}

// The same by value, as two statements have it (`TermsGiven`, `EntriesExact`).
pub fn operate(mut ledger: Ledger, reading: Cycles, operation: Operation) -> Ledgered
    ensures { result ≡ operate_of ledger reading operation }
{
    let answer = operate_on(&mut ledger.books, &mut ledger.threads, reading, operation);
    Ledgered { answer, ledger }
}

pub fn report(ledger: Ledger, thread: u32) -> Result<ThreadReport, Refusal>
    ensures { result ≡ report_of ledger thread }
{
    report_from(&ledger.books, &ledger.threads, thread)
}

// A ledger in which nothing has run.
pub fn fresh() -> Ledger
    ensures { result ≡ fresh_ledger ThreadUsage.SLOTS }
{
    let idle = ThreadUsage::new_idle();
    Ledger {
        books: books::nothing_booked(),
        threads: [idle; ThreadUsage::SLOTS],
    }
}
