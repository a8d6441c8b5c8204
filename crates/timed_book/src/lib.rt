//! The book for the benchmark in C: a static library that is timed, and offered to nobody.
//!
//! Each call loads the image of a book, does the same `times` times, and answers the last time. So the load counts
//! little.
#![tactic(auto)]

ghost use Rattle.std.specs.Prelude.{◌≡◌, length, map};
ghost use Rattle.timed_book.specs.Timed.{after, book_of, job_of, offer_and_strike, tick_once, offer_answer};
ghost use Rattle.timed_book.specs.Timed.{tick_answer, tick_entries};
ghost use Rattle.timed_book.specs.Answers.{answer_of_refusal, answer_of_offer, answer_of_tick, entry_from_c};

use book::{Book, BookFault, Entry, Job, PLACES, Served};
use refusal::{Refusal, Values};

/// What a call answered: 0 and what it served, or the number of a refusal and its values. Zeros fill the list of
/// values.
#[repr(C)]
pub struct TimedAnswer {
    pub number: u32,
    pub values: [u64; 3],
}

/// What a tick gave to one job.
#[repr(C)]
#[derive(Clone, Copy)]
pub struct TimedEntry {
    pub ticket: u16,
    pub units: u16,
}

// What stands in a list of entries that no tick has written to.
const NO_ENTRY: Entry = Entry {
    ticket: 0,
    units: 0,
};

impl TimedAnswer {
    // A refusal by its number and values.
    fn refusal(fault: BookFault) -> TimedAnswer
        ensures { result ≡ answer_of_refusal fault }
    {
        let refusal = Refusal::from(fault);
        let values = match refusal.values {
            Values::One(value) => [value, 0, 0],
            Values::Three(first, second, third) => [first, second, third],
        };
        TimedAnswer {
            number: u32::from(refusal.number),
            values,
        }
    }

    // An accepted offer, or its refusal.
    fn of_offer(answer: Result<(), BookFault>) -> TimedAnswer
        ensures { result ≡ answer_of_offer answer }
    {
        match answer {
            Ok(()) => TimedAnswer {
                number: 0,
                values: [0; 3],
            },
            Err(fault) => TimedAnswer::refusal(fault),
        }
    }

    // A served tick by its setting and the number of its entries, or its refusal.
    fn of_tick(answer: Result<Served, BookFault>) -> TimedAnswer
        ensures { result ≡ answer_of_tick answer }
    {
        match answer {
            Ok(served) => TimedAnswer {
                number: 0,
                values: [u64::from(served.setting), served.count as u64, 0],
            },
            Err(fault) => TimedAnswer::refusal(fault),
        }
    }
}

// The book of an image, or a new one where the image is refused.
fn book_of(image: &[u8]) -> Book
    ensures { result ≡ book_of image.now }
{
    let mut book = Book::new();
    let _ = book.load(image);
    book
}

// The job is offered, and struck again.
fn offer_and_strike(book: &mut Book, job: Job)
    ensures { book.new ≡ offer_and_strike job book.old }
{
    let _ = book.offer(job);
    let _ = book.strike(job.ticket);
}

// The job is offered, and the answer told.
fn offer(book: &mut Book, job: Job) -> TimedAnswer
    ensures { result ≡ offer_answer job book.old }
{
    TimedAnswer::of_offer(book.offer(job))
}

// A tick is served, and its entries are dropped.
fn tick_once(book: &mut Book)
    ensures { book.new ≡ tick_once book.old }
{
    let mut entries = [NO_ENTRY; PLACES];
    let _ = book.tick(&mut entries);
}

// The entries as C takes them.
fn write(entries: &[Entry], list: &mut [TimedEntry])
    requires { length list.old ≡ length entries.now }
    ensures { map entry_from_c list.new ≡ entries.now }
{
    for (index, &Entry { ticket, units }) in entries.iter().enumerate() {
        list[index] = TimedEntry { ticket, units };
    }
}

// A tick is served, its entries are written, and the answer is told.
fn tick(book: &mut Book, list: &mut [TimedEntry; PLACES]) -> TimedAnswer
    ensures answer { result ≡ tick_answer book.old }
    ensures list { map entry_from_c list.new ≡ tick_entries book.old }
{
    let mut entries = [NO_ENTRY; PLACES];
    let answer = book.tick(&mut entries);
    write(&entries, list);
    TimedAnswer::of_tick(answer)
}

/// Loads the image, offers the job and strikes it `times` times, then offers it and answers that.
///
/// An image that is refused stands for a new book.
#[unsafe(no_mangle)]
#[tactic(auto, using(crate::proofs::Times::one_more, crate::proofs::Times::no_more))]
pub extern "C" fn timed_offers(
    image: &[u8],
    times: u32,
    ticket: u16,
    arrival: u64,
    deadline: u64,
    work: u16,
) -> TimedAnswer
    ensures { result ≡ offer_answer (job_of ticket arrival deadline work)
        (after (offer_and_strike (job_of ticket arrival deadline work)) times (book_of image.now)) }
{
    let job = Job {
        ticket,
        arrival,
        deadline,
        work,
    };
    let mut book = book_of(image);
    for _time in 0..times {
        offer_and_strike(&mut book, job);
    }
    offer(&mut book, job)
}

/// Loads the image, serves `times` ticks and one more, and answers that one. Its entries are written to the list, and
/// zeros after them.
///
/// An image that is refused stands for a new book.
#[unsafe(no_mangle)]
#[tactic(auto, using(crate::proofs::Times::one_more, crate::proofs::Times::no_more))]
pub extern "C" fn timed_ticks(
    image: &[u8],
    times: u32,
    list: &mut [TimedEntry; PLACES],
) -> TimedAnswer
    ensures answer { result ≡ tick_answer (after tick_once times (book_of image.now)) }
    ensures list { map entry_from_c list.new ≡ tick_entries (after tick_once times (book_of image.now)) }
{
    let mut book = book_of(image);
    for _time in 0..times {
        tick_once(&mut book);
    }
    tick(&mut book, list)
}
