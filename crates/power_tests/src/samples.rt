// Models and lists of draws.
use power::{Cube, PowerModel};
use std::process::Abort;
use std::test::Fail;

// A model of cubes.
pub(super) fn cubes(fixed: u32, factor: u8) -> Result<Cube, Fail> {
    Cube::new(fixed, factor).map_err(|_| Fail::new("no model was made"))
}

pub(super) fn check_draw<M: PowerModel + Drop>(rt: &impl Abort, model: M, setting: u8, want: u32) {
    assert_eq!(rt; model.draw(setting), want);
}

// 0 to 255, and 44 zeros after them.
pub(super) fn counted() -> [u32; 300] {
    let mut list = [0; 300];
    for (setting, draw) in list[..256].iter_mut().enumerate() {
        *draw = setting as u32;
    }
    list
}
