// Overloads: worked books, and small books by chance against a search of another kind.
use super::samples::{book_at, check_left, job};
use book::{BookFault, Job};
use std::alloc::Global;
use std::process::Abort;
use std::test::Fail;

fn overload(start: u64, end: u64, work: u32) -> BookFault {
    BookFault::Overload { start, end, work }
}

#[test]
fn two_jobs_of_one_tick_fill_a_top_of_4_and_overload_3(rt: HostRuntime) {
    let mut book = book_at(&rt, 0, 4);
    assert_eq!(rt; book.offer(job(1, 0, 1, 2)), Ok(()));
    assert_eq!(rt; book.offer(job(2, 0, 1, 2)), Ok(()));
    let mut book = book_at(&rt, 0, 3);
    assert_eq!(rt; book.offer(job(1, 0, 1, 2)), Ok(()));
    assert_eq!(rt; book.offer(job(2, 0, 1, 2)), Err(overload(0, 1, 4)));
    check_left(&rt, &book, 0, 3, &[job(1, 0, 1, 2)]);
}

#[test]
fn an_interval_may_start_with_another_job(rt: HostRuntime) {
    for now in [0u64, 1_000] {
        let mut book = book_at(&rt, now, 4);
        assert_eq!(rt; book.offer(job(1, now, now + 4, 14)), Ok(()));
        assert_eq!(rt;
            book.offer(job(2, now + 2, now + 4, 4)),
            Err(overload(now, now + 4, 18))
        );
        check_left(&rt, &book, now, 4, &[job(1, now, now + 4, 14)]);
        assert_eq!(rt; book.offer(job(2, now + 2, now + 4, 2)), Ok(()));
    }
}

#[test]
fn the_least_start_is_named_then_the_least_end(rt: HostRuntime) {
    let mut book = book_at(&rt, 0, 1);
    assert_eq!(rt; book.offer(job(1, 0, 8, 4)), Ok(()));
    assert_eq!(rt; book.offer(job(2, 0, 9, 4)), Ok(()));
    // From 2 to 4, and from 0 to 4, to 8 and to 9.
    assert_eq!(rt; book.offer(job(3, 2, 4, 5)), Err(overload(0, 4, 5)));
    // From 2 to 4, and from 0 to 9.
    assert_eq!(rt; book.offer(job(3, 2, 4, 4)), Err(overload(0, 9, 12)));
    // From 2 to 4 alone.
    assert_eq!(rt; book.strike(2), Ok(()));
    assert_eq!(rt; book.offer(job(3, 2, 4, 4)), Err(overload(2, 4, 4)));
}

#[test]
fn all_work_that_ends_with_the_interval_is_named(rt: HostRuntime) {
    let mut book = book_at(&rt, 0, 2);
    assert_eq!(rt; book.offer(job(2, 0, 3, 3)), Ok(()));
    assert_eq!(rt; book.offer(job(3, 1, 3, 3)), Ok(()));
    assert_eq!(rt; book.offer(job(1, 0, 3, 60)), Err(overload(0, 3, 66)));
}

// Numbers by chance, the same in every run.
fn next(number: u32) -> u32 {
    number.wrapping_mul(1_664_525).wrapping_add(1_013_904_223)
}

// The work of the jobs with windows inside the interval.
fn work_within(jobs: &[Job], start: u64, end: u64) -> u32 {
    let mut work = 0u32;
    for job in jobs {
        if start <= job.arrival && job.deadline <= end {
            work = work.wrapping_add(u32::from(job.work));
        }
    }
    work
}

// The first overload within 8 ticks, by a look at every interval.
fn slow_overload(jobs: &[Job], top: u16) -> Option<BookFault> {
    for start in 0..8u64 {
        for end in start + 1..9 {
            let work = work_within(jobs, start, end);
            let begins = jobs.iter().any(|job| job.arrival == start);
            let ends = jobs.iter().any(|job| job.deadline == end);
            if begins && ends && u64::from(work) > u64::from(top) * (end - start) {
                return Some(overload(start, end, work));
            }
        }
    }
    None
}

// The index of the job that has arrived, has work left and the earliest deadline.
fn most_urgent(jobs: &[Job], tick: u64) -> Option<usize> {
    let mut first = None;
    let mut earliest = u64::MAX;
    for (index, job) in jobs.iter().enumerate() {
        if job.arrival <= tick && job.work > 0 && job.deadline < earliest {
            first = Some(index);
            earliest = job.deadline;
        }
    }
    first
}

// Whether all work is done in time where each of 8 ticks serves the top, unit by unit, by earliest deadline.
fn is_served_in_time(jobs: &mut [Job], top: u16) -> bool {
    for tick in 0..8u64 {
        for _ in 0..top {
            if let Some(index) = most_urgent(jobs, tick) {
                if index < jobs.len() {
                    jobs[index].work = jobs[index].work.saturating_sub(1);
                }
            }
        }
        if jobs
            .iter()
            .any(|job| job.deadline == tick + 1 && job.work > 0)
        {
            return false;
        }
    }
    true
}

// Offers and strikes by chance within 8 ticks, each answered as a plain list and serving it answer.
fn check_by_chance(rt: &impl Abort, alloc: Global, top: u16, seed: u32) -> Result<(), Fail> {
    let mut book = book_at(rt, 0, top);
    let mut list: Vec<Job> = Vec::new(alloc);
    let mut number = seed;
    for ticket in 1..40u16 {
        number = next(number);
        let arrival = (number >> 28) as u64 % 8;
        let deadline = arrival + 1 + (number >> 24) as u64 % (8 - arrival);
        let offered = job(ticket, arrival, deadline, 1 + ((number >> 18) % 4) as u16);
        list.push(offered)?;
        let answer = book.offer(offered);
        let mut served = list.clone()?;
        assert_eq!(rt; answer.is_ok(), is_served_in_time(&mut served, top));
        match slow_overload(&list, top) {
            Some(fault) => {
                assert_eq!(rt; answer, Err(fault));
                list.pop();
            }
            None => assert_eq!(rt; answer, Ok(())),
        }
        if (number >> 12) % 3 == 0 {
            if let Some(first) = list.first() {
                assert_eq!(rt; book.strike(first.ticket), Ok(()));
                list.remove(0);
            }
        }
        assert_eq!(rt; book.jobs().len(), list.len());
    }
    Ok(())
}

#[test]
fn offers_are_answered_as_by_slow_searches(rt: HostRuntime) -> Result<(), Fail> {
    for top in 1..6u16 {
        for seed in 0..100u32 {
            check_by_chance(&rt, rt.alloc(), top, seed)?;
        }
    }
    Ok(())
}
