// The examples that stand at the calls of `planner`.
use super::samples::{check_settings, demand};
use planner::{Demand, Demands, RelativeBlock, critical_blocks};
use std::process::Abort;

// [0, 2) with 3 units, and [0, 3) with 1.
fn list() -> [Demand; 2] {
    [demand(0, 2, 3), demand(0, 3, 1)]
}

fn demands_of<'a>(rt: &impl Abort, list: &'a [Demand]) -> Demands<'a> {
    Demands::new(list).expect(rt, "no settings for the list")
}

#[test]
fn of_settings(rt: HostRuntime) {
    check_settings(&rt, &list(), &[2, 1, 1]);
}

#[test]
fn of_demands(rt: HostRuntime) {
    let [early, late] = list();
    assert!(rt; Demands::new(&[early, late]).is_some());
    assert!(rt; Demands::new(&[late, early]).is_none());
    assert!(rt; Demands::new(&[demand(3, 3, 1)]).is_none());
}

#[test]
fn of_work_inside(rt: HostRuntime) {
    let list = list();
    let demands = demands_of(&rt, &list);
    assert_eq!(rt; demands.work_inside(0, 2), 3);
    assert_eq!(rt; demands.work_inside(0, 3), 4);
    assert_eq!(rt; demands.work_inside(1, 3), 0);
}

#[test]
fn of_critical_blocks(rt: HostRuntime) {
    let list = list();
    let blocks = critical_blocks(&demands_of(&rt, &list));
    let first = RelativeBlock {
        speed: (3, 2),
        from: 0,
        to: 2,
    };
    let second = RelativeBlock {
        speed: (1, 1),
        from: 2,
        to: 3,
    };
    let expected: &[RelativeBlock] = &[first, second];
    assert_eq!(rt; blocks.list(), expected);
}
