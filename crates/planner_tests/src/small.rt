// Small books and their settings in force, as tests/schedule.py found them by a search through all lists; the last one
// is worked out by hand.
use super::samples::{check_settings, demand};

#[test]
fn no_demand(rt: HostRuntime) {
    check_settings(&rt, &[], &[]);
}

#[test]
fn one_tick(rt: HostRuntime) {
    check_settings(&rt, &[demand(2, 3, 2)], &[0, 0, 2]);
    check_settings(&rt, &[demand(0, 1, 2), demand(0, 1, 2)], &[4]);
    check_settings(
        &rt,
        &[demand(0, 1, 2), demand(1, 2, 2), demand(3, 4, 2)],
        &[2, 2, 0, 2],
    );
}

#[test]
fn the_greater_setting_comes_first(rt: HostRuntime) {
    check_settings(&rt, &[demand(0, 2, 3), demand(0, 3, 1)], &[2, 1, 1]);
    check_settings(&rt, &[demand(0, 4, 11), demand(2, 4, 4)], &[4, 4, 4, 3]);
    check_settings(
        &rt,
        &[
            demand(0, 1, 3),
            demand(0, 2, 2),
            demand(1, 2, 1),
            demand(0, 2, 3),
        ],
        &[5, 4],
    );
}

#[test]
fn windows_share_their_work_out(rt: HostRuntime) {
    check_settings(&rt, &[demand(2, 3, 1), demand(0, 3, 2)], &[1, 1, 1]);
    check_settings(
        &rt,
        &[demand(1, 2, 1), demand(0, 3, 4), demand(2, 3, 1)],
        &[2, 2, 2],
    );
    check_settings(
        &rt,
        &[demand(3, 4, 1), demand(2, 4, 3), demand(3, 4, 1)],
        &[0, 0, 3, 2],
    );
    check_settings(
        &rt,
        &[
            demand(1, 2, 2),
            demand(0, 3, 2),
            demand(2, 4, 4),
            demand(3, 4, 2),
        ],
        &[2, 2, 3, 3],
    );
}

#[test]
fn room_is_made_before_a_window(rt: HostRuntime) {
    check_settings(
        &rt,
        &[
            demand(2, 4, 1),
            demand(3, 5, 1),
            demand(4, 5, 2),
            demand(2, 5, 3),
        ],
        &[0, 0, 3, 2, 2],
    );
    check_settings(
        &rt,
        &[
            demand(2, 3, 1),
            demand(2, 4, 1),
            demand(2, 4, 2),
            demand(1, 5, 3),
        ],
        &[0, 2, 2, 2, 1],
    );
}

#[test]
fn a_short_window_in_a_long_one(rt: HostRuntime) {
    check_settings(&rt, &[demand(1, 2, 5), demand(0, 4, 4)], &[2, 5, 1, 1]);
    check_settings(
        &rt,
        &[demand(4, 6, 6), demand(0, 10, 4)],
        &[1, 1, 1, 1, 3, 3],
    );
}
