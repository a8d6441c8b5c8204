use power::{CubeField, PowerFault};
use refusal::{Layer, Refusal, Values};
use std::test::Fail;

#[test]
fn a_refusal_with_a_value_has_its_layer_and_number(rt: HostRuntime) {
    assert_eq!(rt;
        Refusal::with_value(Layer::Power, 5, 7),
        Refusal {
            layer: Layer::Power,
            number: 5,
            values: Values::One(7),
        }
    );
}

#[test]
fn each_fault_has_its_number_and_value(rt: HostRuntime) {
    assert_eq!(rt;
        Refusal::from(PowerFault::Field(CubeField::FixedDraw)),
        Refusal::with_value(Layer::Power, 5, 7)
    );
    assert_eq!(rt;
        Refusal::from(PowerFault::Short { needed: 256 }),
        Refusal::with_value(Layer::Power, 10, 256)
    );
    assert_eq!(rt;
        Refusal::from(PowerFault::Broken { setting: 3 }),
        Refusal::with_value(Layer::Power, 12, 3)
    );
    assert_eq!(rt;
        Refusal::from(PowerFault::Broken { setting: 255 }),
        Refusal::with_value(Layer::Power, 12, 255)
    );
}

#[test]
fn each_fault_is_printed(rt: HostRuntime) -> Result<(), Fail> {
    let field = format!(in rt.alloc();
        "{}",
        Refusal::from(PowerFault::Field(CubeField::FixedDraw))
    )?;
    assert_eq!(rt; field.as_str(), "5 7");
    let short = format!(in rt.alloc(); "{}", Refusal::from(PowerFault::Short { needed: 256 }))?;
    assert_eq!(rt; short.as_str(), "10 256");
    let broken = format!(in rt.alloc(); "{}", Refusal::from(PowerFault::Broken { setting: 3 }))?;
    assert_eq!(rt; broken.as_str(), "12 3");
    Ok(())
}
