// What the settings in force draw, by several models.
use super::samples::{book_of, job};
use book::{Book, Entry, PLACES};
use power::{Cube, Floor, Measured};
use std::array;
use std::process::Abort;
use std::test::Fail;

fn cubes(fixed: u32, factor: u8) -> Result<Cube, Fail> {
    Cube::new(fixed, factor).map_err(|_| Fail::new("no model was made"))
}

// The settings in force are 1, 1, 1, 1, 3, 3, then 0.
fn peaked(rt: &impl Abort) -> Book {
    book_of(rt, 4, &[job(1, 0, 10, 4), job(2, 4, 6, 6)])
}

// 256 * 10 = 2,560.
#[test]
fn no_job_draws_the_fixed_draw(rt: HostRuntime) -> Result<(), Fail> {
    assert_eq!(rt; Book::new().bill(&cubes(10, 1)?), 2_560);
    Ok(())
}

// 4 * 1 + 2 * 27 = 58, and one tick later 3 * 1 + 2 * 27 = 57.
#[test]
fn settings_draw_their_cubes(rt: HostRuntime) -> Result<(), Fail> {
    let model = cubes(0, 1)?;
    let mut book = peaked(&rt);
    assert_eq!(rt; book.bill(&model), 58);
    let mut list = [Entry::default(); PLACES];
    assert!(rt; book.tick(&mut list).is_ok());
    assert_eq!(rt; book.bill(&model), 57);
    Ok(())
}

// One unit in the last of the 256 ticks: 255 * 7 + 1 * 8 = 1,793.
#[test]
fn the_last_tick_in_sight_is_billed(rt: HostRuntime) -> Result<(), Fail> {
    let book = book_of(&rt, 4, &[job(1, 255, 256, 1)]);
    assert_eq!(rt; book.bill(&cubes(7, 1)?), 1_793);
    Ok(())
}

// Draws of 0, 1, 4, 9, ..: 4 * 1 + 2 * 9 = 22. Before they are loaded all draws are 0.
#[test]
fn measured_draws_are_billed(rt: HostRuntime) {
    let book = peaked(&rt);
    let mut model = Measured::new();
    assert_eq!(rt; book.bill(&model), 0);
    let squares: [u32; 256] = array::from_fn(|setting| (setting * setting) as u32);
    assert_eq!(rt; model.load_draws(&squares), Ok(()));
    assert_eq!(rt; book.bill(&model), 22);
}

// 254 ticks below the floor or at it draw 2 * 2 * 2 = 8 each, and two draw 27: 254 * 8 + 2 * 27 = 2,086.
#[test]
fn a_floor_raises_the_bill(rt: HostRuntime) -> Result<(), Fail> {
    let model = Floor::new(cubes(0, 1)?, 2);
    assert_eq!(rt; peaked(&rt).bill(&model), 2_086);
    Ok(())
}

// Each setting from 1 to 64 in one tick of its own: their cubes add up to (64 * 65 / 2) squared, 4,326,400.
// Twice that, and 256 * 5 = 1,280.
#[test]
fn each_setting_draws_its_own_cube(rt: HostRuntime) -> Result<(), Fail> {
    let mut book = book_of(&rt, 64, &[]);
    for setting in 1..65u16 {
        let end = u64::from(setting);
        assert_eq!(rt; book.offer(job(setting, end - 1, end, setting)), Ok(()));
    }
    assert_eq!(rt; book.bill(&cubes(5, 2)?), 8_654_080);
    Ok(())
}

// All 256 settings are 255, and 255 * 256 = 65,280. A setting draws 66,000,000 + 255 * 255 * 255 * 255 =
// 4,294,250,625, and 256 times that is 1,099,328,160,000. Where it draws itself, as far as 255, all draw 65,280.
#[test]
fn a_full_book_draws_most(rt: HostRuntime) -> Result<(), Fail> {
    let book = book_of(&rt, 255, &[job(1, 0, 256, 65_280)]);
    assert_eq!(rt; book.bill(&cubes(66_000_000, 255)?), 1_099_328_160_000);
    let mut model = Measured::new();
    let counted: [u32; 256] = array::from_fn(|setting| setting as u32);
    assert_eq!(rt; model.load_draws(&counted), Ok(()));
    assert_eq!(rt; book.bill(&model), 65_280);
    Ok(())
}

// 256 * 4,294,967,295 = 1,099,511,627,520.
#[test]
fn the_greatest_measured_draws_add_up(rt: HostRuntime) {
    let mut model = Measured::new();
    assert_eq!(rt; model.load_draws(&[u32::MAX; 256]), Ok(()));
    assert_eq!(rt; Book::new().bill(&model), 1_099_511_627_520);
}
