// Critical blocks: what is written, and what is refused.
use super::samples::{book_of, check_left, job};
use book::{Book, BookFault, CriticalBlock, Entry, PLACES};
use std::process::Abort;

// What an element of the list holds that no block is written into.
const FREE: CriticalBlock = CriticalBlock {
    speed: (9, 9),
    start: 9,
    end: 9,
};

fn block(work: u32, length: u16, start: u64, end: u64) -> CriticalBlock {
    CriticalBlock {
        speed: (work, length),
        start,
        end,
    }
}

// The book has these critical blocks; the elements after them stay as they were.
fn check_blocks(rt: &impl Abort, book: &Book, blocks: &[CriticalBlock]) {
    let mut list = [FREE; 66];
    let count = blocks.len();
    assert_eq!(rt; book.blocks(&mut list), Ok(count));
    assert!(rt; list.starts_with(blocks));
    assert!(rt; list.iter().skip(count).all(|&block| block == FREE));
}

#[test]
fn an_empty_book_has_none(rt: HostRuntime) {
    check_blocks(&rt, &Book::new(), &[]);
}

#[test]
fn a_dense_window_goes_before_the_one_around_it(rt: HostRuntime) {
    let book = book_of(&rt, 4, &[job(1, 0, 10, 4), job(2, 4, 6, 6)]);
    check_blocks(&rt, &book, &[block(6, 2, 4, 6), block(4, 8, 0, 10)]);
    check_left(&rt, &book, 0, 4, &[job(2, 4, 6, 6), job(1, 0, 10, 4)]);
}

#[test]
fn of_equal_speeds_the_earlier_block_comes_first(rt: HostRuntime) {
    let book = book_of(&rt, 4, &[job(1, 2, 3, 1), job(2, 0, 1, 1)]);
    check_blocks(&rt, &book, &[block(1, 1, 0, 1), block(1, 1, 2, 3)]);
}

#[test]
fn of_equal_speeds_from_one_start_the_longer_block_is_taken(rt: HostRuntime) {
    let book = book_of(&rt, 4, &[job(1, 0, 1, 2), job(2, 0, 3, 4)]);
    check_blocks(&rt, &book, &[block(6, 3, 0, 3)]);
}

#[test]
fn each_of_64_jobs_can_have_a_block_of_its_own(rt: HostRuntime) {
    let mut book = book_of(&rt, 255, &[]);
    let mut blocks = [FREE; 64];
    for index in 0..64u16 {
        let start = 4 * u64::from(index);
        let work = 255 - index;
        assert_eq!(rt; book.offer(job(index + 1, start, start + 1, work)), Ok(()));
        blocks[usize::from(index)] = block(u32::from(work), 1, start, start + 1);
    }
    check_blocks(&rt, &book, &blocks);
}

#[test]
fn windows_are_seen_from_now(rt: HostRuntime) {
    let mut book = book_of(&rt, 4, &[job(7, 0, 2, 3), job(9, 0, 3, 1)]);
    check_blocks(&rt, &book, &[block(3, 2, 0, 2), block(1, 1, 2, 3)]);
    let mut list = [Entry::default(); PLACES];
    assert!(rt; book.tick(&mut list).is_ok());
    check_left(&rt, &book, 1, 4, &[job(7, 0, 2, 1), job(9, 0, 3, 1)]);
    check_blocks(&rt, &book, &[block(2, 2, 1, 3)]);
    assert!(rt; book.tick(&mut list).is_ok());
    check_blocks(&rt, &book, &[block(1, 1, 2, 3)]);
    assert!(rt; book.tick(&mut list).is_ok());
    check_blocks(&rt, &book, &[]);
}

#[test]
fn a_list_of_fewer_than_64_elements_is_refused(rt: HostRuntime) {
    let book = book_of(&rt, 4, &[job(1, 0, 10, 4)]);
    let short = BookFault::Short { needed: 64 };
    let mut list = [FREE; 63];
    assert_eq!(rt; book.blocks(&mut list), Err(short));
    assert!(rt; list.iter().all(|&block| block == FREE));
    assert_eq!(rt; book.blocks(&mut []), Err(short));
    let mut list = [FREE; 64];
    assert_eq!(rt; book.blocks(&mut list), Ok(1));
}
