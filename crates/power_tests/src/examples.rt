// The examples that stand at the calls of `power`.
use power::{Cube, CubeField, Floor, Measured, PowerFault, PowerModel};
use refusal::Refusal;
use std::test::Fail;

fn made(model: Result<Cube, PowerFault>) -> Result<Cube, Fail> {
    model.map_err(|_| Fail::new("no model was made"))
}

#[test]
fn of_a_cube_model(rt: HostRuntime) -> Result<(), Fail> {
    let model = made(Cube::new(10, 2))?;
    assert_eq!(rt; model.draw(0), 10);
    assert_eq!(rt; model.draw(3), 64);
    let refused = Cube::new(66_000_001, 2);
    assert_eq!(rt;
        refused.err(),
        Some(PowerFault::Field(CubeField::FixedDraw))
    );
    Ok(())
}

#[test]
fn of_a_floor(rt: HostRuntime) -> Result<(), Fail> {
    let model = Floor::new(made(Cube::new(0, 1))?, 2);
    assert_eq!(rt; model.draw(0), 8);
    assert_eq!(rt; model.draw(3), 27);
    Ok(())
}

#[test]
fn of_a_measured_model(rt: HostRuntime) {
    let mut model = Measured::new();
    assert_eq!(rt; model.draw(255), 0);
    assert!(rt; model == Measured::default());
    let mut list = [7; 256];
    assert_eq!(rt; model.load_draws(&list), Ok(()));
    assert_eq!(rt; model.draw(255), 7);
    list[255] = 6;
    assert_eq!(rt;
        model.load_draws(&list),
        Err(PowerFault::Broken { setting: 255 })
    );
    assert_eq!(rt; model.draw(255), 7);
    assert_eq!(rt;
        model.load_draws(&[7; 255]),
        Err(PowerFault::Short { needed: 256 })
    );
}

#[test]
fn of_what_is_told(rt: HostRuntime) -> Result<(), Fail> {
    let told = Refusal::from(PowerFault::Broken { setting: 3 });
    assert_eq!(rt; format!(in rt.alloc(); "{told}")?.as_str(), "12 3");
    Ok(())
}
