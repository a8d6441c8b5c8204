// Critical blocks of demands.
use super::samples::demand;
use planner::{Demand, Demands, RelativeBlock, critical_blocks};
use std::process::Abort;

fn check_blocks(rt: &impl Abort, list: &[Demand], blocks: &[RelativeBlock]) {
    let demands = Demands::new(list).expect(rt, "no settings for the list");
    assert_eq!(rt; critical_blocks(&demands).list(), blocks);
}

#[test]
fn demands_with_no_work_left_play_no_part(rt: HostRuntime) {
    let dense = RelativeBlock {
        speed: (6, 2),
        from: 4,
        to: 6,
    };
    let around = RelativeBlock {
        speed: (4, 8),
        from: 0,
        to: 10,
    };
    check_blocks(&rt, &[demand(4, 6, 6), demand(0, 10, 4)], &[dense, around]);
    let more = [
        demand(0, 0, 0),
        demand(4, 6, 6),
        demand(7, 7, 0),
        demand(0, 10, 4),
        demand(3, 300, 0),
    ];
    check_blocks(&rt, &more, &[dense, around]);
    check_blocks(&rt, &[demand(3, 300, 0)], &[]);
}
