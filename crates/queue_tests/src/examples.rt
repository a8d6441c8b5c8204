// The examples that stand at the calls of `queue`.
use queue::{PlannedTick, QueueFault, Rank, ReadyJob, ReadyQueue, TickQueue};

const FIRST: PlannedTick = PlannedTick { units: 2, tick: 0 };

const LATER: PlannedTick = PlannedTick { units: 1, tick: 7 };

#[test]
fn of_a_plan(rt: HostRuntime) {
    let mut slots = [PlannedTick::default(); 256];
    let mut ticks = TickQueue::new(&mut slots);
    assert_eq!(rt; ticks.put(FIRST), Ok(()));
    assert_eq!(rt; ticks.put(LATER), Ok(()));
    assert_eq!(rt; ticks.put(PlannedTick { units: 1, tick: 3 }), Ok(()));
    assert_eq!(rt; ticks.take(), Some(PlannedTick { units: 1, tick: 3 }));
}

#[test]
fn of_a_tick_queue(rt: HostRuntime) {
    let mut slots = [PlannedTick::default(); 2];
    let mut ticks = TickQueue::new(&mut slots);
    assert_eq!(rt; ticks.take(), None);
    assert_eq!(rt; ticks.put(FIRST), Ok(()));
    assert_eq!(rt; ticks.put(LATER), Ok(()));
    assert_eq!(rt;
        ticks.put(PlannedTick { units: 0, tick: 3 }),
        Err(QueueFault::Full { needed: 3 })
    );
    assert_eq!(rt; ticks.least(), Some(LATER));
    assert_eq!(rt; ticks.take(), Some(LATER));
    assert_eq!(rt; ticks.take(), Some(FIRST));
    assert_eq!(rt; ticks.take(), None);
}

#[test]
fn of_try_put(rt: HostRuntime) {
    let mut slots = [PlannedTick::default(); 1];
    let mut ticks = TickQueue::new(&mut slots);
    assert_eq!(rt; ticks.try_put(FIRST), Ok(()));
    assert_eq!(rt; ticks.try_put(LATER), Err(LATER));
}

#[test]
fn of_a_replacement(rt: HostRuntime) {
    let mut slots = [PlannedTick::default(); 2];
    let mut ticks = TickQueue::new(&mut slots);
    assert_eq!(rt; ticks.put(FIRST), Ok(()));
    assert_eq!(rt; ticks.put(LATER), Ok(()));
    let more = PlannedTick { units: 3, tick: 7 };
    assert_eq!(rt; ticks.replace_least(more), Some(LATER));
    assert_eq!(rt; ticks.least(), Some(FIRST));
}

#[test]
fn of_a_ready_queue(rt: HostRuntime) {
    let mut slots = [ReadyJob::default(); 1];
    let mut ready = ReadyQueue::new(&mut slots);
    let first = ReadyJob {
        deadline: 9,
        ticket: 1,
        index: 0,
    };
    let other = ReadyJob {
        deadline: 5,
        ticket: 2,
        index: 1,
    };
    assert_eq!(rt; ready.put(first), Ok(()));
    assert_eq!(rt; ready.put(other), Err(QueueFault::Full { needed: 2 }));
}

#[test]
fn of_ranks(rt: HostRuntime) {
    assert!(rt; LATER.is_before(&FIRST));
}
