// Whatever goes in, in whatever order, comes out sorted.
use queue::{PlannedTick, ReadyJob, ReadyQueue, TickQueue};
use std::alloc::Global;
use std::process::Abort;
use std::test::Fail;

// Numbers by chance, the same in every run.
fn next(number: u32) -> u32 {
    number.wrapping_mul(1_664_525).wrapping_add(1_013_904_223)
}

// `count` ticks with few different units go in, and come out as a sort of their pairs has them.
fn check_sorted(rt: &impl Abort, alloc: Global, count: usize, seed: u32) -> Result<(), Fail> {
    assert!(rt; count <= 64);
    let mut slots = [PlannedTick::default(); 64];
    let mut queue = TickQueue::new(&mut slots);
    let mut pairs = Vec::new(alloc);
    let mut number = seed;
    for _ in 0..count {
        number = next(number);
        let units = (number >> 16) % 8;
        let tick = ((number >> 20) & 0xff) as u16;
        assert_eq!(rt; queue.put(PlannedTick { units, tick }), Ok(()));
        pairs.push((units, tick))?;
    }
    pairs.sort()?;
    for (units, tick) in pairs {
        assert_eq!(rt; queue.take(), Some(PlannedTick { units, tick }));
    }
    assert_eq!(rt; queue.take(), None);
    Ok(())
}

#[test]
fn ticks_come_out_sorted(rt: HostRuntime) -> Result<(), Fail> {
    for count in 0..65usize {
        for seed in 0..20u32 {
            check_sorted(&rt, rt.alloc(), count, seed)?;
        }
    }
    Ok(())
}

// Removes the job with the earliest deadline, then the least ticket, from a plain list.
fn take_first(list: &mut Vec<ReadyJob>) -> Option<ReadyJob> {
    let first = list
        .iter()
        .copied()
        .min_by_key(|job| (job.deadline, job.ticket))?;
    list.retain(|job| *job != first);
    Some(first)
}

// Puts and takes by chance, each answered as a plain list answers it. Tickets count up, so no two jobs have one rank.
fn check_mixed(rt: &impl Abort, alloc: Global, seed: u32) -> Result<(), Fail> {
    let mut slots = [ReadyJob::default(); 32];
    let mut queue = ReadyQueue::new(&mut slots);
    let mut list = Vec::new(alloc);
    let mut number = seed;
    for ticket in 0..400u16 {
        number = next(number);
        if (number >> 16) % 5 < 3 && list.len() < 32 {
            let job = ReadyJob {
                deadline: u64::from(number >> 24) % 6,
                ticket,
                index: ((number >> 8) & 0xff) as u8,
            };
            assert_eq!(rt; queue.put(job), Ok(()));
            list.push(job)?;
        } else {
            assert_eq!(rt; queue.take(), take_first(&mut list));
        }
    }
    Ok(())
}

#[test]
fn jobs_come_out_as_from_a_plain_list(rt: HostRuntime) -> Result<(), Fail> {
    for seed in 0..100u32 {
        check_mixed(&rt, rt.alloc(), seed)?;
    }
    Ok(())
}

// Removes the tick with the fewest units, then the earliest, from a plain list.
fn take_least(list: &mut Vec<PlannedTick>) -> Option<PlannedTick> {
    let least = list
        .iter()
        .copied()
        .min_by_key(|tick| (tick.units, tick.tick))?;
    list.retain(|tick| *tick != least);
    Some(least)
}

// Puts, takes and replacements by chance, each answered as a plain list answers it. No tick comes twice.
fn check_replaced(rt: &impl Abort, alloc: Global, seed: u32) -> Result<(), Fail> {
    let mut slots = [PlannedTick::default(); 32];
    let mut queue = TickQueue::new(&mut slots);
    let mut list = Vec::new(alloc);
    let mut number = seed;
    for tick in 0..400u16 {
        number = next(number);
        let units = (number >> 24) % 6;
        let added = PlannedTick { units, tick };
        let kind = (number >> 16) % 8;
        if kind < 3 && list.len() < 32 {
            assert_eq!(rt; queue.put(added), Ok(()));
            list.push(added)?;
            continue;
        }
        let least = take_least(&mut list);
        assert_eq!(rt; queue.least(), least);
        if kind < 5 {
            assert_eq!(rt; queue.take(), least);
            continue;
        }
        assert_eq!(rt; queue.replace_least(added), least);
        if least.is_some() {
            list.push(added)?;
        }
    }
    Ok(())
}

#[test]
fn replaced_ticks_come_out_as_from_a_plain_list(rt: HostRuntime) -> Result<(), Fail> {
    for seed in 0..100u32 {
        check_replaced(&rt, rt.alloc(), seed)?;
    }
    Ok(())
}
