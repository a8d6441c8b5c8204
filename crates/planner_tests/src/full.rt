// Demands over all 256 ticks, and as many and as great ones as there can be.
use super::samples::{check_settings, demand};
use std::array::from_fn;

#[test]
fn even(rt: HostRuntime) {
    check_settings(&rt, &[demand(0, 256, 1024)], &[4; 256]);
}

#[test]
fn one_unit_above_even(rt: HostRuntime) {
    let mut expected = [1; 256];
    expected[0] = 2;
    check_settings(&rt, &[demand(0, 256, 257)], &expected);
}

#[test]
fn one_unit_below_even(rt: HostRuntime) {
    let mut expected = [2; 256];
    expected[255] = 1;
    check_settings(&rt, &[demand(0, 256, 511)], &expected);
}

#[test]
fn all_that_top_255_can_do(rt: HostRuntime) {
    check_settings(&rt, &[demand(0, 256, 65_280)], &[255; 256]);
}

#[test]
fn all_by_64_demands(rt: HostRuntime) {
    check_settings(&rt, &[demand(0, 256, 1020); 64], &[255; 256]);
    let parts: [_; 64] = from_fn(|part| demand(4 * part as u16, 4 * part as u16 + 4, 1020));
    check_settings(&rt, &parts, &[255; 256]);
}

#[test]
fn settings_above_255(rt: HostRuntime) {
    check_settings(&rt, &[demand(0, 1, 65_535); 64], &[4_194_240]);
}

#[test]
fn no_work_left(rt: HostRuntime) {
    check_settings(&rt, &[demand(7, 7, 0), demand(3, 300, 0)], &[]);
}
