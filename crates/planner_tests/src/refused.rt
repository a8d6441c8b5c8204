// Lists that no settings are made for, and lists at the edge.
use super::samples::demand;
use planner::Demands;

#[test]
fn a_65th_demand(rt: HostRuntime) {
    assert!(rt; Demands::new(&[demand(0, 1, 1); 64]).is_some());
    assert!(rt; Demands::new(&[demand(0, 1, 1); 65]).is_none());
}

#[test]
fn a_window_of_no_tick(rt: HostRuntime) {
    assert!(rt; Demands::new(&[demand(3, 4, 1)]).is_some());
    assert!(rt; Demands::new(&[demand(3, 3, 1)]).is_none());
    assert!(rt; Demands::new(&[demand(4, 3, 1)]).is_none());
    assert!(rt; Demands::new(&[demand(4, 3, 0)]).is_some());
}

#[test]
fn a_window_that_ends_too_late(rt: HostRuntime) {
    assert!(rt; Demands::new(&[demand(255, 256, 1)]).is_some());
    assert!(rt; Demands::new(&[demand(255, 257, 1)]).is_none());
}

#[test]
fn an_earlier_deadline_after_a_later_one(rt: HostRuntime) {
    assert!(rt; Demands::new(&[demand(2, 3, 1), demand(0, 3, 1)]).is_some());
    assert!(rt; Demands::new(&[demand(2, 3, 1), demand(0, 2, 1)]).is_none());
}
