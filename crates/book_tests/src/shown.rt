// What `{:?}` shows of a book: now, the top and the open jobs, and nothing of places that no job takes.
use super::samples::{book_of, check_left, job};
use book::{Book, Entry, PLACES};
use std::process::Abort;
use std::test::Fail;

fn check_shown(rt: &(impl Abort + AllocGlobal), book: &Book, text: &str) -> Result<(), Fail> {
    let shown = format!(in rt.alloc(); "{book:?}")?;
    assert_eq!(rt; shown.as_str(), text);
    Ok(())
}

#[test]
fn an_empty_book_shows_no_job(rt: HostRuntime) -> Result<(), Fail> {
    check_shown(&rt, &Book::new(), "Book { tick: 0, top: 1, jobs: [] }")
}

#[test]
fn a_struck_job_is_shown_no_more(rt: HostRuntime) -> Result<(), Fail> {
    let mut book = book_of(&rt, 4, &[job(7, 0, 2, 3), job(9, 0, 3, 1)]);
    let first = "Job { ticket: 7, arrival: 0, deadline: 2, work: 3 }";
    let second = "Job { ticket: 9, arrival: 0, deadline: 3, work: 1 }";
    let both = format!(in rt.alloc(); "Book {{ tick: 0, top: 4, jobs: [{first}, {second}] }}")?;
    check_shown(&rt, &book, both.as_str())?;
    assert_eq!(rt; book.strike(7), Ok(()));
    let one = format!(in rt.alloc(); "Book {{ tick: 0, top: 4, jobs: [{second}] }}")?;
    check_shown(&rt, &book, one.as_str())?;
    assert_eq!(rt; book.strike(9), Ok(()));
    check_shown(&rt, &book, "Book { tick: 0, top: 4, jobs: [] }")
}

#[test]
fn a_job_that_a_tick_closes_is_shown_no_more(rt: HostRuntime) -> Result<(), Fail> {
    let mut book = book_of(&rt, 4, &[job(7, 0, 1, 3)]);
    assert!(rt; book.tick(&mut [Entry::default(); PLACES]).is_ok());
    check_shown(&rt, &book, "Book { tick: 1, top: 4, jobs: [] }")
}

#[test]
fn a_default_book_is_empty_at_0_with_top_1(rt: HostRuntime) {
    check_left(&rt, &Book::default(), 0, 1, &[]);
}
