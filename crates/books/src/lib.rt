// One operation over the books and the one thread record that it concerns: each closed stretch is entered once.
#![tactic(auto)]

ghost use Rattle.std.specs.Prelude.{◌≡◌, cond, eqb};
ghost use Rattle.books.specs.Entries.{charged, close_of, stop_of, switch_of, altered, reopen_of, alter_of, enter_of, open_of};
ghost use Rattle.books.specs.Running.{is_running, stamp_of, nothing_booked, no_thread, unrecorded, past, busy, concerned};
ghost use Rattle.books.specs.Enter.{entry_of};

use error::Refusal;
use units::Cycles;
use usage::ThreadUsage;

// What the ledger keeps besides the thread records.
#[derive(Clone, Copy)]
pub struct Books {
    // The stamp at which the open stretch began; 0 where none runs, as upstream's `stop_decide` and document 01 have
    // it.
    pub stamp: u32,
    // The thread that runs; looked at only where the stamp is not 0.
    pub running: u32,
    // The cycles of all closed stretches.
    pub total: Cycles,
}

#[derive(Clone, Copy)]
pub enum Operation {
    Start(u32),
    Switch(u32),
    Stop,
    Enable(u32),
    Disable(u32),
}

// The books and the one record concerned, after an operation, and the cycles that it closed.
#[derive(Clone, Copy)]
pub struct Entry {
    pub cycles: u32,
    pub books: Books,
    pub usage: ThreadUsage,
}

#[tactic(auto, unfolding(crate::specs::Running::stamp_of))]
fn stamp_of(reading: Cycles) -> u32
    ensures { result ≡ stamp_of reading.0 }
{
    let low = reading.0 % 4294967296;
    if low == 0 {
        return 1;
    }
    low as u32
}

#[tactic(auto, unfolding(crate::specs::Running::is_running))]
fn runs(books: Books, thread: u32) -> bool
    ensures { result ≡ is_running books thread }
{
    (books.stamp != 0) & (books.running == thread)
}

fn opened(books: Books, now: u32, thread: u32) -> Books
    ensures { result ≡ open_of books now thread }
{
    let mut open = books;
    open.stamp = now;
    open.running = thread;
    open
}

// An untracked thread's own total stays; the machine's gets every stretch.
#[tactic(auto, unfolding(crate::specs::Entries::charged))]
fn charged(usage: ThreadUsage, cycles: u32) -> Result<ThreadUsage, Refusal>
    ensures { result ≡ charged usage cycles }
{
    if usage.track_usage {
        return usage::accumulated(usage, cycles);
    }
    Ok(usage)
}

// Books, record and stamp go on apart: between the steps of a switch or a reopening books and record are others each
// time, and one struct of the three would be made anew at each call. Thread and flag are an operation taken apart.

// Closes the open stretch, whose thread has the record handed in.
#[tactic(auto, unfolding(crate::specs::Entries::close_of, crate::specs::Entries::onward))]
fn closed(books: Books, usage: ThreadUsage, now: u32) -> Result<Entry, Refusal>
    ensures { result ≡ close_of books usage now }
{
    let cycles = usage::elapsed_cycles(now, books.stamp);
    let room = u64::MAX - cycles as u64;
    if room < books.total.0 {
        return Err(Refusal::Overflow);
    }
    let next = charged(usage, cycles)?;
    let sum = books.total.0 + cycles as u64;
    let total = Cycles(sum);
    let mut shut = books;
    shut.stamp = 0;
    shut.total = total;
    Ok(Entry {
        cycles: cycles,
        books: shut,
        usage: next,
    })
}

#[tactic(auto, unfolding(crate::specs::Entries::stop_of))]
fn stopped(books: Books, usage: ThreadUsage, now: u32) -> Result<Entry, Refusal>
    ensures { result ≡ stop_of books usage now }
{
    if books.stamp == 0 {
        return Ok(Entry {
            cycles: 0,
            books: books,
            usage: usage,
        });
    }
    closed(books, usage, now)
}

// One stamp both closes and opens, so that no cycle is lost or counted twice between two threads.
#[tactic(auto, unfolding(crate::specs::Entries::switch_of, crate::specs::Entries::onward))]
fn switched(books: Books, usage: ThreadUsage, now: u32, thread: u32) -> Result<Entry, Refusal>
    ensures { result ≡ switch_of books usage now thread }
{
    let entry = stopped(books, usage, now)?;
    let shut = entry.books;
    let next = entry.usage;
    Ok(Entry {
        cycles: entry.cycles,
        books: opened(shut, now, thread),
        usage: next,
    })
}

#[tactic(auto, unfolding(crate::specs::Entries::altered))]
fn altered(usage: ThreadUsage, on: bool) -> Result<ThreadUsage, Refusal>
    ensures { result ≡ altered usage on }
{
    if on {
        usage::enabled(usage)
    } else {
        usage::disabled(usage)
    }
}

// Enable or disable. The stretch of a running thread is closed under the old flag and opened under the new one.
#[tactic(auto, unfolding(crate::specs::Entries::alter_of, crate::specs::Entries::onward))]
fn flagged(
    books: Books,
    usage: ThreadUsage,
    now: u32,
    thread: u32,
    on: bool,
) -> Result<Entry, Refusal>
    ensures { result ≡ alter_of books usage now thread on }
{
    if usage.track_usage == on {
        return Ok(Entry {
            cycles: 0,
            books: books,
            usage: usage,
        });
    }
    if runs(books, thread) {
        return reopened(books, usage, now, thread, on);
    }
    let next = altered(usage, on)?;
    Ok(Entry {
        cycles: 0,
        books: books,
        usage: next,
    })
}

#[tactic(auto, unfolding(crate::specs::Entries::reopen_of, crate::specs::Entries::onward))]
fn reopened(
    books: Books,
    usage: ThreadUsage,
    now: u32,
    thread: u32,
    on: bool,
) -> Result<Entry, Refusal>
    ensures { result ≡ reopen_of books usage now thread on }
{
    let entry = closed(books, usage, now)?;
    let shut = entry.books;
    let old = entry.usage;
    let next = altered(old, on)?;
    Ok(Entry {
        cycles: entry.cycles,
        books: opened(shut, now, thread),
        usage: next,
    })
}

// An operation's entry at a stamp, once its tests are made.
#[tactic(auto, unfolding(crate::specs::Entries::enter_of))]
fn enter_at(
    books: Books,
    usage: ThreadUsage,
    now: u32,
    operation: Operation,
) -> Result<Entry, Refusal>
    ensures { result ≡ enter_of books usage now operation }
{
    match operation {
        Operation::Start(thread) => Ok(Entry {
            cycles: 0,
            books: opened(books, now, thread),
            usage: usage,
        }),
        Operation::Switch(thread) => switched(books, usage, now, thread),
        Operation::Stop => stopped(books, usage, now),
        Operation::Enable(thread) => flagged(books, usage, now, thread, true),
        Operation::Disable(thread) => flagged(books, usage, now, thread, false),
    }
}

// Whether a table of so many slots has no record of a thread.
pub fn no_thread(slots: usize, thread: u32) -> bool
    ensures { result ≡ no_thread slots thread }
{
    slots <= thread as usize
}

// Whether a thread runs that has no record.
#[tactic(auto, unfolding(crate::specs::Running::unrecorded))]
pub fn unrecorded(books: Books, slots: usize) -> bool
    ensures { result ≡ unrecorded books slots }
{
    (books.stamp != 0) & no_thread(slots, books.running)
}

// Whether the operation names a thread past a table of so many slots.
#[tactic(auto, unfolding(crate::specs::Running::past))]
pub fn past(operation: Operation, slots: usize) -> bool
    ensures { result ≡ past operation slots }
{
    match operation {
        Operation::Start(thread) => no_thread(slots, thread),
        Operation::Switch(thread) => no_thread(slots, thread),
        Operation::Stop => false,
        Operation::Enable(thread) => no_thread(slots, thread),
        Operation::Disable(thread) => no_thread(slots, thread),
    }
}

// Whether it is a start while one runs.
#[tactic(auto, unfolding(crate::specs::Running::busy))]
pub fn busy(books: Books, operation: Operation) -> bool
    ensures { result ≡ busy books operation }
{
    match operation {
        Operation::Start(_) => books.stamp != 0,
        Operation::Switch(_) => false,
        Operation::Stop => false,
        Operation::Enable(_) => false,
        Operation::Disable(_) => false,
    }
}

// An operation over the books and the one record that it concerns, which is given back: the same cost for any number of
// threads. Which record that is `concerned` tells, and whether the table has it `past` and `unrecorded`.
#[tactic(auto, unfolding(crate::specs::Enter::entry_of))]
pub fn enter(
    books: Books,
    usage: ThreadUsage,
    reading: Cycles,
    operation: Operation,
) -> Result<Entry, Refusal>
    ensures { result ≡ entry_of books usage reading operation }
{
    if busy(books, operation) {
        return Err(Refusal::Already);
    }
    enter_at(books, usage, stamp_of(reading), operation)
}

// The thread that goes, or the one that the operation names where none goes.
fn going(books: Books, named: u32) -> u32
    ensures { result ≡ cond (eqb books.stamp 0) named books.running }
{
    if books.stamp == 0 {
        named
    } else {
        books.running
    }
}

// The thread whose record the operation concerns.
#[tactic(auto, unfolding(crate::specs::Running::concerned))]
pub fn concerned(books: Books, operation: Operation) -> u32
    ensures { result ≡ concerned books operation }
{
    match operation {
        Operation::Start(thread) => thread,
        Operation::Switch(thread) => going(books, thread),
        Operation::Stop => going(books, 0),
        Operation::Enable(thread) => thread,
        Operation::Disable(thread) => thread,
    }
}

// Its zeros are written out, as the definition has them.
pub fn nothing_booked() -> Books
    ensures { result ≡ nothing_booked }
{
    Books {
        stamp: 0,
        running: 0,
        total: Cycles(0),
    }
}
