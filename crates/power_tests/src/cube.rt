use super::samples::{check_draw, cubes};
use power::{Cube, CubeField, PowerFault, PowerModel};
use std::test::Fail;

#[test]
fn the_fixed_draw_has_a_limit(rt: HostRuntime) {
    let too_great = Some(PowerFault::Field(CubeField::FixedDraw));
    assert_eq!(rt; Cube::new(0, 255).err(), None);
    assert_eq!(rt; Cube::new(66_000_000, 0).err(), None);
    assert_eq!(rt; Cube::new(66_000_001, 0).err(), too_great);
    assert_eq!(rt; Cube::new(u32::MAX, 255).err(), too_great);
}

// 255 * 255 = 65,025, and 65,025 * 255 = 16,581,375, and 16,581,375 * 255 = 4,228,250,625.
#[test]
fn the_extremes_fit(rt: HostRuntime) -> Result<(), Fail> {
    check_draw(&rt, cubes(66_000_000, 255)?, 255, 4_294_250_625);
    check_draw(&rt, cubes(66_000_000, 255)?, 0, 66_000_000);
    check_draw(&rt, cubes(66_000_000, 0)?, 255, 66_000_000);
    check_draw(&rt, cubes(0, 255)?, 255, 4_228_250_625);
    check_draw(&rt, cubes(0, 1)?, 255, 16_581_375);
    check_draw(&rt, cubes(0, 0)?, 255, 0);
    Ok(())
}

#[test]
fn a_draw_is_the_fixed_one_and_the_factor_times_the_cube(rt: HostRuntime) -> Result<(), Fail> {
    check_draw(&rt, cubes(10, 1)?, 0, 10);
    check_draw(&rt, cubes(10, 1)?, 1, 11);
    check_draw(&rt, cubes(10, 7)?, 2, 66);
    check_draw(&rt, cubes(3, 5)?, 10, 5_003);
    check_draw(&rt, cubes(3, 10)?, 5, 1_253);
    Ok(())
}

#[test]
fn each_of_the_256_is_a_cube(rt: HostRuntime) -> Result<(), Fail> {
    let model = cubes(0, 1)?;
    for setting in 0..=255u8 {
        let side = u32::from(setting);
        check_draw(&rt, model, setting, side * side * side);
    }
    Ok(())
}
