// Settings in force and ticks: what is written, what is left, and what is refused.
use super::samples::{LAST_TICK, book_at, book_of, check_left, job};
use book::{Book, BookFault, Entry, Served};
use std::process::Abort;

// What an element of the list holds that no entry is written into.
const FREE: Entry = Entry {
    ticket: 65_535,
    units: 9,
};

fn entry(ticket: u16, units: u16) -> Entry {
    Entry { ticket, units }
}

// The settings in force begin with these, and are 0 after them.
fn check_settings(rt: &impl Abort, book: &Book, first: &[u8]) {
    let mut list = [9; 260];
    assert_eq!(rt; book.settings(&mut list), Ok(()));
    assert!(rt; list.starts_with(first));
    let rest = list.iter().take(256).skip(first.len());
    assert!(rt; rest.copied().all(|setting| setting == 0));
    assert!(rt; list.ends_with(&[9, 9, 9, 9]));
}

// A tick answers the setting and writes these entries; the elements after them stay as they were.
fn check_tick(rt: &impl Abort, book: &mut Book, setting: u8, entries: &[Entry]) {
    let mut list = [FREE; 66];
    let count = entries.len();
    assert_eq!(rt; book.tick(&mut list), Ok(Served { setting, count }));
    assert!(rt; list.starts_with(entries));
    assert!(rt; list.iter().skip(count).all(|&entry| entry == FREE));
}

#[test]
fn an_empty_book_has_settings_0_and_serves_none(rt: HostRuntime) {
    let mut book = Book::new();
    check_settings(&rt, &book, &[]);
    check_tick(&rt, &mut book, 0, &[]);
    check_left(&rt, &book, 1, 1, &[]);
}

#[test]
fn the_earlier_deadline_is_served_first(rt: HostRuntime) {
    let mut book = book_of(&rt, 4, &[job(7, 0, 2, 3), job(9, 0, 3, 1)]);
    check_settings(&rt, &book, &[2, 1, 1]);
    check_tick(&rt, &mut book, 2, &[entry(7, 2)]);
    check_left(&rt, &book, 1, 4, &[job(7, 0, 2, 1), job(9, 0, 3, 1)]);
    check_tick(&rt, &mut book, 1, &[entry(7, 1)]);
    check_left(&rt, &book, 2, 4, &[job(9, 0, 3, 1)]);
    check_tick(&rt, &mut book, 1, &[entry(9, 1)]);
    check_left(&rt, &book, 3, 4, &[]);
}

#[test]
fn of_equal_deadlines_the_least_ticket_is_served_first(rt: HostRuntime) {
    let mut book = book_of(&rt, 4, &[job(2, 0, 1, 2), job(1, 0, 1, 2)]);
    check_tick(&rt, &mut book, 4, &[entry(1, 2), entry(2, 2)]);
    check_left(&rt, &book, 1, 4, &[]);
}

#[test]
fn no_job_is_served_before_its_arrival(rt: HostRuntime) {
    let mut book = book_of(&rt, 4, &[job(1, 2, 3, 1), job(2, 0, 3, 2)]);
    check_settings(&rt, &book, &[1, 1, 1]);
    check_tick(&rt, &mut book, 1, &[entry(2, 1)]);
    check_tick(&rt, &mut book, 1, &[entry(2, 1)]);
    check_tick(&rt, &mut book, 1, &[entry(1, 1)]);
    check_left(&rt, &book, 3, 4, &[]);
}

#[test]
fn a_full_book_is_served_in_one_tick(rt: HostRuntime) {
    let mut book = book_at(&rt, 0, 64);
    for ticket in 1..65u16 {
        assert_eq!(rt; book.offer(job(ticket, 0, 1, 1)), Ok(()));
    }
    let mut list = [FREE; 64];
    assert_eq!(rt;
        book.tick(&mut list),
        Ok(Served {
            setting: 64,
            count: 64
        })
    );
    assert!(rt;
        list.iter()
            .zip(1..65u16)
            .all(|(&written, ticket)| written == entry(ticket, 1))
    );
    check_left(&rt, &book, 1, 64, &[]);
}

#[test]
fn short_lists_are_refused_and_left(rt: HostRuntime) {
    let mut book = book_of(&rt, 4, &[job(7, 0, 2, 3)]);
    let mut settings = [9; 255];
    assert_eq!(rt;
        book.settings(&mut settings),
        Err(BookFault::Short { needed: 256 })
    );
    assert!(rt; settings.iter().all(|&setting| setting == 9));
    let mut list = [FREE; 63];
    assert_eq!(rt; book.tick(&mut list), Err(BookFault::Short { needed: 64 }));
    assert!(rt; list.iter().all(|&entry| entry == FREE));
    check_left(&rt, &book, 0, 4, &[job(7, 0, 2, 3)]);
}

#[test]
fn the_last_tick_is_not_served(rt: HostRuntime) {
    let mut book = book_at(&rt, LAST_TICK - 1, 4);
    check_tick(&rt, &mut book, 0, &[]);
    check_left(&rt, &book, LAST_TICK, 4, &[]);
    let mut list = [FREE; 64];
    assert_eq!(rt;
        book.tick(&mut list),
        Err(BookFault::LastTick { now: LAST_TICK })
    );
    assert_eq!(rt;
        book.tick(&mut list[..63]),
        Err(BookFault::Short { needed: 64 })
    );
    assert!(rt; list.iter().all(|&entry| entry == FREE));
    check_left(&rt, &book, LAST_TICK, 4, &[]);
}
