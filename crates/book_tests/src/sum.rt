// What settings that a caller brings draw, by several models.
use book::{HORIZON, total_draw};
use power::{Cube, Floor, Measured};
use std::array;
use std::test::Fail;

fn cubes(fixed: u32, factor: u8) -> Result<Cube, Fail> {
    Cube::new(fixed, factor).map_err(|_| Fail::new("no model was made"))
}

// The settings 0 to 255, one of each.
fn each_once() -> [u8; HORIZON] {
    array::from_fn(|setting| setting as u8)
}

// 256 * 10 = 2,560.
#[test]
fn idle_settings_draw_the_fixed_draw(rt: HostRuntime) -> Result<(), Fail> {
    assert_eq!(rt; total_draw(&cubes(10, 1)?, &[0; HORIZON]), 2_560);
    Ok(())
}

// The settings 1, 1, 1, 1, 3, 3, then 0: 4 * 1 + 2 * 27 = 58.
#[test]
fn a_few_settings_draw_their_cubes(rt: HostRuntime) -> Result<(), Fail> {
    let mut settings = [0; HORIZON];
    settings[..4].fill(1);
    settings[4..6].fill(3);
    assert_eq!(rt; total_draw(&cubes(0, 1)?, &settings), 58);
    Ok(())
}

// The cubes of 1 to 255 add up to (255 * 256 / 2) squared: 32,640 * 32,640 = 1,065,369,600. Twice that, and 256 * 5 =
// 1,280.
#[test]
fn each_setting_once_draws_all_cubes(rt: HostRuntime) -> Result<(), Fail> {
    assert_eq!(rt; total_draw(&cubes(5, 2)?, &each_once()), 2_130_740_480);
    Ok(())
}

// 256 * 4,294,250,625 = 1,099,328,160,000.
#[test]
fn the_greatest_sum_of_cubes(rt: HostRuntime) -> Result<(), Fail> {
    assert_eq!(rt;
        total_draw(&cubes(66_000_000, 255)?, &[255; HORIZON]),
        1_099_328_160_000
    );
    Ok(())
}

// Below 4 four settings draw 64, and 1 * 1 + 2 * 2 * 2 + 3 * 3 * 3 = 36 of the 1,065,369,600 fall away: 4 * 64 - 36 =
// 220 more.
#[test]
fn a_floor_raises_the_sum(rt: HostRuntime) -> Result<(), Fail> {
    let model = Floor::new(cubes(0, 1)?, 4);
    assert_eq!(rt; total_draw(&model, &each_once()), 1_065_369_820);
    Ok(())
}

// 0 + 1 + .. + 255 = 255 * 128 = 32,640, and 256 * 4,294,967,295 = 1,099,511,627,520. Before draws are loaded all are
// 0.
#[test]
fn measured_draws_add_up(rt: HostRuntime) {
    let mut model = Measured::new();
    assert_eq!(rt; total_draw(&model, &each_once()), 0);
    // 0 to 255, and 44 zeros after them.
    let counted: [u32; 300] = array::from_fn(|index| if index < 256 { index as u32 } else { 0 });
    assert_eq!(rt; model.load_draws(&counted), Ok(()));
    assert_eq!(rt; total_draw(&model, &each_once()), 32_640);
    assert_eq!(rt; model.load_draws(&[u32::MAX; 256]), Ok(()));
    assert_eq!(rt; total_draw(&model, &[7; HORIZON]), 1_099_511_627_520);
}
