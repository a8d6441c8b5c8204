use super::samples::{check_draw, cubes};
use power::{Floor, Measured};
use std::test::Fail;

#[test]
fn a_setting_below_the_floor_draws_as_the_floor(rt: HostRuntime) -> Result<(), Fail> {
    let lower = cubes(0, 1)?;
    check_draw(&rt, Floor::new(lower, 2), 0, 8);
    check_draw(&rt, Floor::new(lower, 2), 1, 8);
    check_draw(&rt, Floor::new(lower, 2), 2, 8);
    check_draw(&rt, Floor::new(lower, 2), 3, 27);
    check_draw(&rt, Floor::new(lower, 0), 0, 0);
    check_draw(&rt, Floor::new(lower, 0), 1, 1);
    check_draw(&rt, Floor::new(lower, 255), 0, 16_581_375);
    check_draw(&rt, Floor::new(lower, 254), 255, 16_581_375);
    Ok(())
}

#[test]
fn the_higher_of_two_floors_counts(rt: HostRuntime) -> Result<(), Fail> {
    let lower = cubes(0, 1)?;
    check_draw(&rt, Floor::new(Floor::new(lower, 4), 2), 0, 64);
    check_draw(&rt, Floor::new(Floor::new(lower, 2), 4), 0, 64);
    check_draw(&rt, Floor::new(Floor::new(lower, 4), 2), 3, 64);
    check_draw(&rt, Floor::new(Floor::new(lower, 2), 4), 5, 125);
    Ok(())
}

#[test]
fn a_floor_stands_over_any_model(rt: HostRuntime) {
    let mut lower = Measured::new();
    let mut list = [9u32; 256];
    list[0] = 0;
    assert!(rt; lower.load_draws(&list).is_err());
    list[0] = 9;
    list[255] = 10;
    assert!(rt; lower.load_draws(&list).is_ok());
    check_draw(&rt, Floor::new(lower, 255), 0, 10);
}
