// Full and empty queues, slots that are used again, and elements of one rank.
use queue::{PlannedTick, QueueFault, ReadyJob, ReadyQueue, TickQueue};
use refusal::{Layer, Refusal, Values};
use std::process::Abort;
use std::test::Fail;

fn tick(units: u32, tick: u16) -> PlannedTick {
    PlannedTick { units, tick }
}

// A queue of `count` slots takes `count` ticks and refuses one more; then all come out, and none after them.
fn check_full(rt: &impl Abort, count: usize) {
    assert!(rt; count <= 5);
    let mut slots = [tick(9, 9); 5];
    let mut queue = TickQueue::new(&mut slots[0..count]);
    assert_eq!(rt; queue.take(), None);
    let first = 11 - count as u16;
    for number in (first..11).rev() {
        assert_eq!(rt; queue.put(tick(7, number)), Ok(()));
    }
    for _ in 0..2 {
        assert_eq!(rt;
            queue.put(tick(0, 0)),
            Err(QueueFault::Full { needed: count + 1 })
        );
    }
    for number in first..11 {
        assert_eq!(rt; queue.take(), Some(tick(7, number)));
    }
    assert_eq!(rt; queue.take(), None);
}

#[test]
fn a_full_queue_refuses_and_keeps_all(rt: HostRuntime) {
    for count in 0..6usize {
        check_full(&rt, count);
    }
}

#[test]
fn a_freed_slot_is_used_again(rt: HostRuntime) {
    let mut slots = [tick(0, 0); 2];
    let mut queue = TickQueue::new(&mut slots);
    assert_eq!(rt; queue.put(tick(1, 0)), Ok(()));
    for number in 0..100u16 {
        assert_eq!(rt; queue.put(tick(2 + u32::from(number), number)), Ok(()));
        assert!(rt; queue.put(tick(0, 0)).is_err());
        assert_eq!(rt;
            queue.take(),
            Some(tick(1 + u32::from(number), number.saturating_sub(1)))
        );
    }
    assert_eq!(rt; queue.take(), Some(tick(101, 99)));
    assert_eq!(rt; queue.take(), None);
}

// A replacement adds nothing where none is held, and needs no free slot.
#[test]
fn a_replacement_keeps_the_count(rt: HostRuntime) {
    let mut slots = [tick(0, 0); 2];
    let mut queue = TickQueue::new(&mut slots);
    assert_eq!(rt; queue.least(), None);
    assert_eq!(rt; queue.replace_least(tick(1, 1)), None);
    assert_eq!(rt; queue.least(), None);
    assert_eq!(rt; queue.put(tick(1, 1)), Ok(()));
    assert_eq!(rt; queue.replace_least(tick(3, 1)), Some(tick(1, 1)));
    assert_eq!(rt; queue.put(tick(2, 2)), Ok(()));
    assert_eq!(rt; queue.replace_least(tick(4, 2)), Some(tick(2, 2)));
    assert_eq!(rt; queue.replace_least(tick(0, 0)), Some(tick(3, 1)));
    assert_eq!(rt; queue.least(), Some(tick(0, 0)));
    assert_eq!(rt; queue.take(), Some(tick(0, 0)));
    assert_eq!(rt; queue.take(), Some(tick(4, 2)));
    assert_eq!(rt; queue.take(), None);
}

// Two jobs of one rank both come out, each once, before a later one.
#[test]
fn jobs_of_one_rank_both_come(rt: HostRuntime) {
    let mut slots = [ReadyJob::default(); 3];
    let mut queue = ReadyQueue::new(&mut slots);
    for (ticket, index) in [(9u16, 4u8), (8, 1), (8, 2)] {
        assert!(rt;
            queue
                .put(ReadyJob {
                    deadline: 5,
                    ticket,
                    index,
                })
                .is_ok()
        );
    }
    let taken = [queue.take(), queue.take(), queue.take()];
    let indices = taken.map(|job| job.map(|job| job.index));
    assert!(rt; indices == [Some(1), Some(2), Some(4)] || indices == [Some(2), Some(1), Some(4)]);
}

#[test]
fn the_refusal_tells_the_slots_needed(rt: HostRuntime) -> Result<(), Fail> {
    let told = Refusal::from(QueueFault::Full { needed: 3 });
    assert_eq!(rt;
        told,
        Refusal {
            layer: Layer::Queue,
            number: 10,
            values: Values::One(3),
        }
    );
    assert_eq!(rt; format!(in rt.alloc(); "{told}")?.as_str(), "10 3");
    Ok(())
}
