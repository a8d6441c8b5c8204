// What the tests share.
use planner::{Demand, Demands, settings};
use std::process::Abort;

pub(super) fn demand(from: u16, to: u16, units: u16) -> Demand {
    Demand { from, to, units }
}

// The settings in force for the list are the expected ones, and 0 after them.
pub(super) fn check_settings(rt: &impl Abort, list: &[Demand], expected: &[u32]) {
    assert!(rt; expected.len() <= 256);
    let demands = Demands::new(list).expect(rt, "no settings for the list");
    let found = settings(&demands);
    let (first, rest) = found.split_at(expected.len());
    assert_eq!(rt; first, expected);
    assert!(rt; rest.iter().all(|setting| *setting == 0));
}
