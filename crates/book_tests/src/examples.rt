// The examples that the public items of `book` and `life` give.
use super::samples::{book_at, book_of, check_left, job};
use book::{Book, BookFault, BookField, CriticalBlock, Entry, HORIZON, IMAGE_LEN, PLACES, Served};
use life::{Request, Response, handle};
use power::Cube;
use record::Record;
use std::process::Abort;
use std::test::Fail;

// A book at 0 with top 4, and the job [0, 2) 3 with ticket 7.
fn book_of_one(rt: &impl Abort) -> Book {
    book_of(rt, 4, &[job(7, 0, 2, 3)])
}

// The first tick of that job.
const SERVED: Served = Served {
    setting: 2,
    count: 1,
};

#[test]
fn of_settings_and_a_tick(rt: HostRuntime) {
    let mut book = book_of_one(&rt);
    let mut settings = [9; HORIZON];
    assert_eq!(rt; book.settings(&mut settings), Ok(()));
    assert!(rt; settings.starts_with(&[2, 1]));
    assert!(rt; settings[2..].iter().all(|setting| *setting == 0));
    let mut entries = [Entry::default(); PLACES];
    assert_eq!(rt; book.tick(&mut entries), Ok(SERVED));
    assert!(rt;
        entries[0]
            == Entry {
                ticket: 7,
                units: 2
            }
    );
}

#[test]
fn of_what_a_book_has(rt: HostRuntime) {
    let mut book = Book::new();
    assert_eq!(rt; (book.now(), book.top()), (0, 1));
    assert_eq!(rt; book.open(5, 4), Ok(()));
    assert_eq!(rt; (book.now(), book.top()), (5, 4));
    assert_eq!(rt; book.offer(job(7, 5, 7, 3)), Ok(()));
    assert_eq!(rt; book.offer(job(9, 5, 6, 2)), Ok(()));
    assert_eq!(rt; book.jobs(), [job(9, 5, 6, 2), job(7, 5, 7, 3)].as_slice());
}

#[test]
fn of_open(rt: HostRuntime) {
    let mut book = Book::new();
    assert_eq!(rt; book.open(0, 4), Ok(()));
    let refused = BookFault::Field(BookField::Top);
    assert_eq!(rt; book.open(0, 256), Err(refused));
}

#[test]
fn of_offer(rt: HostRuntime) {
    let mut book = book_at(&rt, 0, 4);
    assert_eq!(rt; book.offer(job(7, 0, 2, 3)), Ok(()));
    let refused = BookFault::Overload {
        start: 0,
        end: 2,
        work: 9,
    };
    assert_eq!(rt; book.offer(job(9, 0, 2, 6)), Err(refused));
}

#[test]
fn of_strike(rt: HostRuntime) {
    let mut book = book_of_one(&rt);
    assert_eq!(rt; book.strike(7), Ok(()));
    assert_eq!(rt; book.strike(7), Err(BookFault::NotOpen { ticket: 7 }));
}

#[test]
fn of_bill(rt: HostRuntime) -> Result<(), Fail> {
    let model = Cube::new(0, 1).map_err(|_| Fail::new("no model was made"))?;
    assert_eq!(rt; book_of_one(&rt).bill(&model), 9);
    Ok(())
}

#[test]
fn of_blocks(rt: HostRuntime) {
    let mut blocks = [CriticalBlock::default(); PLACES];
    assert_eq!(rt; book_of_one(&rt).blocks(&mut blocks), Ok(1));
    let first = CriticalBlock {
        speed: (3, 2),
        start: 0,
        end: 2,
    };
    assert_eq!(rt; blocks[0], first);
}

#[test]
fn of_save(rt: HostRuntime) {
    let mut image = [0; IMAGE_LEN];
    assert_eq!(rt; book_of_one(&rt).save(&mut image), Ok(()));
    let mut other = Book::new();
    assert_eq!(rt; other.load(&image), Ok(()));
    check_left(&rt, &other, 0, 4, &[job(7, 0, 2, 3)]);
}

#[test]
fn of_load(rt: HostRuntime) {
    let image = [0; IMAGE_LEN];
    let refused = BookFault::Image { number: 0 };
    assert_eq!(rt; Book::new().load(&image), Err(refused));
}

#[test]
fn of_a_life(rt: HostRuntime) {
    let mut book = Book::new();
    assert_eq!(rt; book.open(0, 4), Ok(()));
    let mut list = [Entry::default(); PLACES];
    let offer = Request::Offer(job(7, 0, 2, 3));
    assert_eq!(rt;
        handle(&mut book, &offer, &mut list),
        Ok(Response::Offered { ticket: 7 })
    );
    assert_eq!(rt;
        handle(&mut book, &Request::Tick, &mut list),
        Ok(Response::Served(SERVED))
    );
}

#[test]
fn of_a_request(rt: HostRuntime) {
    assert_eq!(rt;
        Request::of(&Record::Strike { ticket: 7 }),
        Request::Strike { ticket: 7 }
    );
}

#[test]
fn of_handle(rt: HostRuntime) {
    let mut book = book_of_one(&rt);
    let mut list = [Entry::default(); PLACES];
    assert_eq!(rt;
        handle(&mut book, &Request::Strike { ticket: 7 }, &mut list),
        Ok(Response::Struck { ticket: 7 })
    );
}
