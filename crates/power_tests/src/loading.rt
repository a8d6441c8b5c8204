use super::samples::counted;
use power::{Measured, PowerFault, PowerModel};
use std::process::Abort;

// A model with the draw 2 at 254, 5 at 255 and 0 elsewhere.
fn loaded(rt: &impl Abort) -> Measured {
    let mut model = Measured::new();
    let mut list = [0u32; 256];
    list[254] = 2;
    list[255] = 5;
    assert_eq!(rt; model.load_draws(&list), Ok(()));
    model
}

fn check_as_loaded(rt: &impl Abort, model: &Measured) {
    for setting in 0..=253u8 {
        assert_eq!(rt; model.draw(setting), 0);
    }
    assert_eq!(rt; model.draw(254), 2);
    assert_eq!(rt; model.draw(255), 5);
}

fn check_refused(rt: &impl Abort, list: &[u32], want: PowerFault) {
    let mut model = loaded(rt);
    assert_eq!(rt; model.load_draws(list), Err(want));
    check_as_loaded(rt, &model);
}

#[test]
fn a_new_model_has_zeros(rt: HostRuntime) {
    let model = Measured::new();
    for setting in 0..=255u8 {
        assert_eq!(rt; model.draw(setting), 0);
    }
}

#[test]
fn a_short_list_is_refused(rt: HostRuntime) {
    let lists: [&[u32]; 3] = [&[], &[0], &[0; 255]];
    for list in lists {
        check_refused(&rt, list, PowerFault::Short { needed: 256 });
    }
}

// The first 255 fall, and still the length is what is refused.
#[test]
fn the_length_comes_before_the_laws(rt: HostRuntime) {
    let mut list = [0u32; 255];
    list[0] = 1;
    check_refused(&rt, &list, PowerFault::Short { needed: 256 });
}

// At 2 the sum 2 + 0 is twice 1, and at 3 the sum 2 + 1 is less than twice 2.
#[test]
fn a_smaller_step_is_refused(rt: HostRuntime) {
    let mut list = [2u32; 256];
    list[0] = 0;
    list[1] = 1;
    check_refused(&rt, &list, PowerFault::Broken { setting: 3 });
}

// The draws are `low` up to the setting, and `high` from it on.
fn stepped(setting: u8, low: u32, high: u32) -> [u32; 256] {
    let mut list = [high; 256];
    list[..setting as usize].fill(low);
    list
}

#[test]
fn a_fall_is_refused_where_it_is(rt: HostRuntime) {
    for setting in 1..=255u8 {
        check_refused(&rt, &stepped(setting, 1, 0), PowerFault::Broken { setting });
    }
    check_refused(
        &rt,
        &stepped(1, u32::MAX, 0),
        PowerFault::Broken { setting: 1 },
    );
}

// After a step up all is level, so that the step after it is smaller; after the last there is none.
#[test]
fn a_step_up_is_refused_one_on(rt: HostRuntime) {
    for setting in 1..=254u8 {
        check_refused(
            &rt,
            &stepped(setting, 0, 1),
            PowerFault::Broken {
                setting: setting + 1,
            },
        );
    }
    let mut model = Measured::new();
    assert_eq!(rt; model.load_draws(&stepped(255, 0, u32::MAX)), Ok(()));
    assert_eq!(rt; model.draw(254), 0);
    assert_eq!(rt; model.draw(255), u32::MAX);
}

// The draws fall at 255 alone, and then at 2 as well.
#[test]
fn the_least_setting_is_named(rt: HostRuntime) {
    let mut list = [0u32; 256];
    list[254] = 1;
    check_refused(&rt, &list, PowerFault::Broken { setting: 255 });
    list[1] = 1;
    check_refused(&rt, &list, PowerFault::Broken { setting: 2 });
}

// Sums of two draws pass 32 bits.
#[test]
fn the_greatest_draws_are_loaded(rt: HostRuntime) {
    let mut model = loaded(&rt);
    assert_eq!(rt; model.load_draws(&[u32::MAX; 256]), Ok(()));
    for setting in 0..=255u8 {
        assert_eq!(rt; model.draw(setting), u32::MAX);
    }
}

// Of 300 numbers the first 256 are 0 to 255, and the rest fall.
#[test]
fn of_a_longer_list_the_first_256_count(rt: HostRuntime) {
    let mut model = loaded(&rt);
    assert_eq!(rt; model.load_draws(&counted()), Ok(()));
    for setting in 0..=255u8 {
        assert_eq!(rt; model.draw(setting), u32::from(setting));
    }
}
