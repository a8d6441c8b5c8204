// Jobs and books that several tests use.
use book::{Book, Job};
use std::process::Abort;

// The last tick of all.
pub(super) const LAST_TICK: u64 = 281_474_976_710_655;

pub(super) fn job(ticket: u16, arrival: u64, deadline: u64, work: u16) -> Job {
    Job {
        ticket,
        arrival,
        deadline,
        work,
    }
}

// An empty book at now with the top.
pub(super) fn book_at(rt: &impl Abort, now: u64, top: u16) -> Book {
    let mut book = Book::new();
    assert_eq!(rt; book.open(now, top), Ok(()));
    book
}

// A book at 0 with the top and these open jobs.
pub(super) fn book_of(rt: &impl Abort, top: u16, jobs: &[Job]) -> Book {
    let mut book = book_at(rt, 0, top);
    for job in jobs {
        assert_eq!(rt; book.offer(*job), Ok(()));
    }
    book
}

// The book has this now, this top and these open jobs.
pub(super) fn check_left(rt: &impl Abort, book: &Book, now: u64, top: u8, jobs: &[Job]) {
    assert_eq!(rt; book.now(), now);
    assert_eq!(rt; book.top(), top);
    assert_eq!(rt; book.jobs(), jobs);
}
