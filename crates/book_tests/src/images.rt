// Images: the bytes that save writes, what load makes of them, and which record a refusal names.
use super::samples::{LAST_TICK, book_at, check_left, job};
use book::{Book, BookFault, Job};
use std::alloc::{AllocError, Global};
use std::process::Abort;
use std::test::Fail;

// The bytes of an image.
const LEN: usize = 1560;

// The record of now 5 and top 4.
const CLOCK: [u8; 24] = [
    0x43, 0, 0, 0, 0, 0, 0, 0, 0, 5, 0, 0, 0, 0, 0, 0, 0, 4, 0, 0, 0, 0, 0, 0,
];

// The record of a job with numbers below 256.
fn record_of(ticket: u8, arrival: u8, deadline: u8, work: u8) -> [u8; 24] {
    [
        0x4a, 0, 0, ticket, 0, 0, 0, 0, 0, arrival, 0, 0, 0, 0, 0, deadline, 0, work, 0, 0, 0, 0,
        0, 0,
    ]
}

// An image that begins with these records; the others are blank.
fn image_of(alloc: Global, records: &[[u8; 24]]) -> Result<Vec<u8>, AllocError> {
    let mut image = Vec::new(alloc);
    for record in records {
        image.extend_from_slice(record)?;
    }
    for _ in records.len()..65 {
        image.extend_from_slice(&[0; 24])?;
    }
    Ok(image)
}

// A list is refused, and leaves a book with a job as it was.
fn check_refused(rt: &impl Abort, list: &[u8], fault: BookFault) {
    let mut book = book_at(rt, 0, 3);
    assert_eq!(rt; book.offer(job(7, 0, 2, 3)), Ok(()));
    assert_eq!(rt; book.load(list), Err(fault));
    check_left(rt, &book, 0, 3, &[job(7, 0, 2, 3)]);
}

// A list is loaded over another book.
fn check_loaded(rt: &impl Abort, list: &[u8], now: u64, top: u8, jobs: &[Job]) {
    let mut book = book_at(rt, 0, 3);
    assert_eq!(rt; book.offer(job(7, 0, 2, 3)), Ok(()));
    assert_eq!(rt; book.load(list), Ok(()));
    check_left(rt, &book, now, top, jobs);
}

// The image with these records is refused with the number.
fn check_wrong(
    rt: &impl Abort,
    alloc: Global,
    records: &[[u8; 24]],
    number: usize,
) -> Result<(), AllocError> {
    let image = image_of(alloc, records)?;
    check_refused(rt, image.as_slice(), BookFault::Image { number });
    Ok(())
}

// The record with another byte at the offset.
fn changed(rt: &impl Abort, mut record: [u8; 24], offset: usize, byte: u8) -> [u8; 24] {
    assert!(rt; offset < 24);
    record[offset] = byte;
    record
}

#[test]
fn the_bytes_are_those_of_now_the_top_and_the_jobs(rt: HostRuntime) {
    let mut book = book_at(&rt, 0x0102_0304_0506, 255);
    let added = job(0x0708, 0x0102_0304_0507, 0x0102_0304_0516, 0x0a0b);
    assert_eq!(rt; book.offer(added), Ok(()));
    let mut list = [9; LEN + 4];
    assert_eq!(rt; book.save(&mut list), Ok(()));
    let first = [
        0x43, 0, 0, 0, 1, 2, 3, 4, 5, 6, 0, 0, 0, 0, 0, 0, 0, 255, 0, 0, 0, 0, 0, 0, 0x4a, 0, 7, 8,
        1, 2, 3, 4, 5, 7, 1, 2, 3, 4, 5, 0x16, 10, 11, 0, 0, 0, 0, 0, 0,
    ];
    assert!(rt; list.starts_with(&first));
    assert!(rt; list.iter().take(LEN).skip(48).all(|&byte| byte == 0));
    assert!(rt; list.ends_with(&[9, 9, 9, 9]));
}

#[test]
fn a_saved_book_loads_back(rt: HostRuntime) {
    let mut book = book_at(&rt, 5, 4);
    assert_eq!(rt; book.offer(job(9, 5, 8, 2)), Ok(()));
    assert_eq!(rt; book.offer(job(7, 6, 8, 1)), Ok(()));
    assert_eq!(rt; book.offer(job(2, 5, 7, 1)), Ok(()));
    let mut list = [9; LEN];
    assert_eq!(rt; book.save(&mut list), Ok(()));
    let jobs = [job(2, 5, 7, 1), job(7, 6, 8, 1), job(9, 5, 8, 2)];
    check_loaded(&rt, &list, 5, 4, &jobs);
}

#[test]
fn a_full_book_loads_back(rt: HostRuntime) {
    let mut book = book_at(&rt, 0, 255);
    for ticket in 1..65u16 {
        assert_eq!(rt; book.offer(job(ticket, 0, 256, 1)), Ok(()));
    }
    let mut list = [9; LEN];
    assert_eq!(rt; book.save(&mut list), Ok(()));
    check_loaded(&rt, &list, 0, 255, book.jobs());
}

#[test]
fn a_job_that_arrived_before_now_loads(rt: HostRuntime) -> Result<(), Fail> {
    let image = image_of(rt.alloc(), &[CLOCK, record_of(7, 0, 9, 3)])?;
    check_loaded(&rt, image.as_slice(), 5, 4, &[job(7, 0, 9, 3)]);
    Ok(())
}

#[test]
fn now_and_the_top_load_at_their_edges(rt: HostRuntime) {
    let mut list = [9; LEN];
    for (now, top) in [(0u64, 1u8), (LAST_TICK, 255)] {
        let book = book_at(&rt, now, u16::from(top));
        assert_eq!(rt; book.save(&mut list), Ok(()));
        check_loaded(&rt, &list, now, top, &[]);
    }
}

#[test]
fn short_lists_are_refused_and_left(rt: HostRuntime) -> Result<(), Fail> {
    let mut list = [9; LEN - 1];
    assert_eq!(rt;
        Book::new().save(&mut list),
        Err(BookFault::Short { needed: LEN })
    );
    assert!(rt; list.iter().all(|&byte| byte == 9));
    check_refused(&rt, &list, BookFault::Short { needed: LEN });
    let mut image = image_of(rt.alloc(), &[CLOCK])?;
    image.truncate(LEN - 1);
    check_refused(&rt, image.as_slice(), BookFault::Short { needed: LEN });
    check_refused(&rt, &[], BookFault::Short { needed: LEN });
    Ok(())
}

#[test]
fn elements_after_the_image_are_not_read(rt: HostRuntime) -> Result<(), Fail> {
    let mut image = image_of(rt.alloc(), &[CLOCK, record_of(7, 5, 9, 3)])?;
    image.extend_from_slice(&[9; 24])?;
    check_loaded(&rt, image.as_slice(), 5, 4, &[job(7, 5, 9, 3)]);
    Ok(())
}

#[test]
fn a_wrong_first_record_is_number_0(rt: HostRuntime) -> Result<(), Fail> {
    check_wrong(&rt, rt.alloc(), &[], 0)?;
    check_wrong(&rt, rt.alloc(), &[record_of(7, 5, 9, 3)], 0)?;
    // Another kind, a byte that has to be 0, and top 0.
    for (offset, byte) in [
        (0usize, 0x63u8),
        (1, 1),
        (3, 1),
        (15, 1),
        (18, 1),
        (23, 1),
        (17, 0),
    ] {
        check_wrong(&rt, rt.alloc(), &[changed(&rt, CLOCK, offset, byte)], 0)?;
    }
    // Top 256.
    let no_top = changed(&rt, CLOCK, 17, 0);
    check_wrong(&rt, rt.alloc(), &[changed(&rt, no_top, 16, 1)], 0)?;
    Ok(())
}

#[test]
fn a_wrong_job_is_named(rt: HostRuntime) -> Result<(), Fail> {
    let first = record_of(7, 5, 9, 3);
    for (offset, byte) in [
        (0usize, 0x4bu8),
        (1, 1),
        (18, 1),
        (23, 1),
        (3, 0),
        (17, 0),
        (15, 5),
        (9, 9),
        (10, 1),
    ] {
        check_wrong(
            &rt,
            rt.alloc(),
            &[CLOCK, changed(&rt, first, offset, byte)],
            1,
        )?;
    }
    // Out of order by deadline, and by ticket; a ticket twice.
    for second in [
        record_of(8, 5, 8, 1),
        record_of(6, 5, 9, 1),
        record_of(7, 5, 10, 1),
    ] {
        check_wrong(&rt, rt.alloc(), &[CLOCK, first, second], 2)?;
    }
    Ok(())
}

#[test]
fn deadlines_load_as_far_as_they_are_in_sight(rt: HostRuntime) -> Result<(), Fail> {
    // 261 is 256 ticks after now, and after the arrival.
    let last = changed(&rt, record_of(7, 5, 5, 3), 14, 1);
    let image = image_of(rt.alloc(), &[CLOCK, last])?;
    check_loaded(&rt, image.as_slice(), 5, 4, &[job(7, 5, 261, 3)]);
    check_wrong(&rt, rt.alloc(), &[CLOCK, changed(&rt, last, 15, 6)], 1)?;
    check_wrong(&rt, rt.alloc(), &[CLOCK, changed(&rt, last, 9, 4)], 1)?;
    Ok(())
}

#[test]
fn what_follows_the_jobs_is_blank(rt: HostRuntime) -> Result<(), Fail> {
    let first = record_of(7, 5, 9, 3);
    let blank = [0; 24];
    check_wrong(&rt, rt.alloc(), &[CLOCK, blank, first], 2)?;
    check_wrong(
        &rt,
        rt.alloc(),
        &[CLOCK, first, blank, record_of(8, 5, 9, 1)],
        3,
    )?;
    check_wrong(
        &rt,
        rt.alloc(),
        &[CLOCK, first, blank, changed(&rt, blank, 23, 1)],
        3,
    )?;
    let mut image = image_of(rt.alloc(), &[CLOCK, first])?;
    image.truncate(LEN - 1);
    image.extend_from_slice(&[1])?;
    check_refused(&rt, image.as_slice(), BookFault::Image { number: 64 });
    Ok(())
}

#[test]
fn overload_is_number_65_and_comes_last(rt: HostRuntime) -> Result<(), Fail> {
    let over = record_of(7, 5, 6, 5);
    check_wrong(&rt, rt.alloc(), &[CLOCK, over], 65)?;
    check_wrong(
        &rt,
        rt.alloc(),
        &[CLOCK, over, changed(&rt, over, 18, 1)],
        2,
    )?;
    let image = image_of(rt.alloc(), &[CLOCK, record_of(7, 5, 6, 4)])?;
    check_loaded(&rt, image.as_slice(), 5, 4, &[job(7, 5, 6, 4)]);
    Ok(())
}
