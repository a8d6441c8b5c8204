// The fields of an opened book and of an offered job, at their edges and in their order.
use super::samples::{LAST_TICK, book_at, check_left, job};
use book::{Book, BookFault, BookField, Job};
use std::process::Abort;

fn check_refused(rt: &impl Abort, now: u64, offered: Job, field: BookField) {
    let mut book = book_at(rt, now, 4);
    assert_eq!(rt; book.offer(offered), Err(BookFault::Field(field)));
    check_left(rt, &book, now, 4, &[]);
}

fn check_accepted(rt: &impl Abort, now: u64, offered: Job) {
    let mut book = book_at(rt, now, 4);
    assert_eq!(rt; book.offer(offered), Ok(()));
    check_left(rt, &book, now, 4, &[offered]);
}

#[test]
fn a_new_book_is_empty_at_0_with_top_1(rt: HostRuntime) {
    check_left(&rt, &Book::new(), 0, 1, &[]);
}

#[test]
fn a_start_is_a_tick(rt: HostRuntime) {
    check_left(&rt, &book_at(&rt, LAST_TICK, 4), LAST_TICK, 4, &[]);
    let mut book = book_at(&rt, 9, 4);
    assert_eq!(rt; book.offer(job(1, 9, 10, 4)), Ok(()));
    for start in [LAST_TICK + 1, u64::MAX] {
        assert_eq!(rt;
            book.open(start, 4),
            Err(BookFault::Field(BookField::Start))
        );
        assert_eq!(rt;
            book.open(start, 0),
            Err(BookFault::Field(BookField::Start))
        );
        check_left(&rt, &book, 9, 4, &[job(1, 9, 10, 4)]);
    }
}

#[test]
fn a_top_is_1_to_255(rt: HostRuntime) {
    for top in [1u16, 255] {
        check_left(&rt, &book_at(&rt, 0, top), 0, top as u8, &[]);
    }
    let mut book = book_at(&rt, 9, 4);
    for top in [0u16, 256, 65_535] {
        assert_eq!(rt; book.open(0, top), Err(BookFault::Field(BookField::Top)));
        check_left(&rt, &book, 9, 4, &[]);
    }
}

#[test]
fn opening_again_empties_the_book(rt: HostRuntime) {
    let mut book = book_at(&rt, 0, 4);
    assert_eq!(rt; book.offer(job(1, 0, 10, 4)), Ok(()));
    assert_eq!(rt; book.open(3, 5), Ok(()));
    check_left(&rt, &book, 3, 5, &[]);
    assert_eq!(rt; book.offer(job(1, 3, 10, 4)), Ok(()));
}

#[test]
fn a_ticket_is_1_to_65535(rt: HostRuntime) {
    check_refused(&rt, 0, job(0, 0, 1, 1), BookField::Ticket);
    check_accepted(&rt, 0, job(1, 0, 1, 1));
    check_accepted(&rt, 0, job(65_535, 0, 1, 1));
}

#[test]
fn an_arrival_is_not_before_now(rt: HostRuntime) {
    check_refused(&rt, 7, job(1, 6, 8, 1), BookField::Arrival);
    check_accepted(&rt, 7, job(1, 7, 8, 1));
    check_accepted(&rt, 7, job(1, 262, 263, 1));
}

#[test]
fn a_deadline_is_after_the_arrival_and_within_256_ticks(rt: HostRuntime) {
    for now in [0u64, 7, 1_000_000] {
        check_refused(&rt, now, job(1, now + 5, now + 4, 1), BookField::Deadline);
        check_refused(&rt, now, job(1, now + 5, now + 5, 1), BookField::Deadline);
        check_accepted(&rt, now, job(1, now + 5, now + 6, 1));
        check_accepted(&rt, now, job(1, now, now + 256, 1));
        check_refused(&rt, now, job(1, now, now + 257, 1), BookField::Deadline);
        check_refused(
            &rt,
            now,
            job(1, now + 256, now + 257, 1),
            BookField::Deadline,
        );
        check_refused(&rt, now, job(1, now, u64::MAX, 1), BookField::Deadline);
    }
}

#[test]
fn a_deadline_is_a_tick(rt: HostRuntime) {
    for before in 1..4u64 {
        let now = LAST_TICK - before;
        check_accepted(&rt, now, job(1, now, LAST_TICK, 1));
        check_refused(&rt, now, job(1, now, LAST_TICK + 1, 1), BookField::Deadline);
    }
    check_refused(
        &rt,
        LAST_TICK,
        job(1, LAST_TICK, LAST_TICK, 1),
        BookField::Deadline,
    );
    check_refused(
        &rt,
        LAST_TICK,
        job(1, LAST_TICK, LAST_TICK + 1, 1),
        BookField::Deadline,
    );
    let now = LAST_TICK - 256;
    check_accepted(&rt, now, job(1, now, LAST_TICK, 1));
}

#[test]
fn work_is_1_to_65535(rt: HostRuntime) {
    check_refused(&rt, 0, job(1, 0, 1, 0), BookField::Work);
    let mut book = book_at(&rt, 0, 255);
    assert_eq!(rt; book.offer(job(1, 0, 256, 65_280)), Ok(()));
    assert_eq!(rt; book.strike(1), Ok(()));
    let overload = BookFault::Overload {
        start: 0,
        end: 256,
        work: 65_535,
    };
    assert_eq!(rt; book.offer(job(1, 0, 256, 65_535)), Err(overload));
    check_left(&rt, &book, 0, 255, &[]);
}

#[test]
fn the_first_wrong_field_is_named(rt: HostRuntime) {
    check_refused(&rt, 7, job(0, 6, 6, 0), BookField::Ticket);
    check_refused(&rt, 7, job(1, 6, 6, 0), BookField::Arrival);
    check_refused(&rt, 7, job(1, 7, 7, 0), BookField::Deadline);
    check_refused(&rt, 7, job(1, 7, 8, 0), BookField::Work);
}
