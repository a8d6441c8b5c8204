// Open tickets, the 64 places, strikes, and the order of the open jobs.
use super::samples::{book_at, check_left, job};
use book::{BookFault, Job};

#[test]
fn an_open_ticket_is_refused_until_it_is_struck(rt: HostRuntime) {
    let mut book = book_at(&rt, 0, 4);
    assert_eq!(rt; book.offer(job(7, 0, 2, 3)), Ok(()));
    assert_eq!(rt;
        book.offer(job(7, 5, 9, 1)),
        Err(BookFault::TicketOpen { ticket: 7 })
    );
    check_left(&rt, &book, 0, 4, &[job(7, 0, 2, 3)]);
    assert_eq!(rt; book.strike(7), Ok(()));
    check_left(&rt, &book, 0, 4, &[]);
    assert_eq!(rt; book.offer(job(7, 5, 9, 1)), Ok(()));
    check_left(&rt, &book, 0, 4, &[job(7, 5, 9, 1)]);
}

#[test]
fn a_ticket_that_is_not_open_is_not_struck(rt: HostRuntime) {
    let mut book = book_at(&rt, 0, 4);
    for ticket in [0u16, 7, 65_535] {
        assert_eq!(rt; book.strike(ticket), Err(BookFault::NotOpen { ticket }));
    }
    assert_eq!(rt; book.offer(job(7, 0, 2, 3)), Ok(()));
    for ticket in [0u16, 6, 8] {
        assert_eq!(rt; book.strike(ticket), Err(BookFault::NotOpen { ticket }));
        check_left(&rt, &book, 0, 4, &[job(7, 0, 2, 3)]);
    }
    assert_eq!(rt; book.strike(7), Ok(()));
    assert_eq!(rt; book.strike(7), Err(BookFault::NotOpen { ticket: 7 }));
}

#[test]
fn the_65th_job_is_refused(rt: HostRuntime) {
    let mut book = book_at(&rt, 0, 255);
    for ticket in 1..65u16 {
        assert_eq!(rt; book.offer(job(ticket, 0, 256, 1)), Ok(()));
    }
    assert_eq!(rt; book.jobs().len(), 64);
    for _ in 0..2 {
        assert_eq!(rt;
            book.offer(job(65, 0, 256, 1)),
            Err(BookFault::Full { places: 64 })
        );
    }
    // An open ticket is named first, and a wrong field before both; overload comes last.
    assert_eq!(rt;
        book.offer(job(64, 0, 256, 1)),
        Err(BookFault::TicketOpen { ticket: 64 })
    );
    assert_eq!(rt;
        book.offer(job(65, 0, 1, 256)),
        Err(BookFault::Full { places: 64 })
    );
    assert_eq!(rt; book.strike(64), Ok(()));
    assert_eq!(rt; book.offer(job(65, 0, 256, 1)), Ok(()));
    assert_eq!(rt; book.jobs().len(), 64);
}

#[test]
fn the_jobs_stand_by_deadline_then_ticket(rt: HostRuntime) {
    let sorted: [Job; 5] = [
        job(9, 1, 2, 1),
        job(3, 0, 5, 1),
        job(5, 4, 5, 1),
        job(8, 2, 5, 1),
        job(1, 0, 7, 1),
    ];
    for order in [[0usize, 1, 2, 3, 4], [4, 3, 2, 1, 0], [2, 4, 0, 3, 1]] {
        let mut book = book_at(&rt, 0, 4);
        for index in order {
            assert!(rt; index < 5);
            assert_eq!(rt; book.offer(sorted[index]), Ok(()));
        }
        check_left(&rt, &book, 0, 4, &sorted);
        assert_eq!(rt; book.strike(5), Ok(()));
        check_left(
            &rt,
            &book,
            0,
            4,
            &[sorted[0], sorted[1], sorted[3], sorted[4]],
        );
    }
}
