// Why a power model refuses.
ghost use Rattle.std.specs.Prelude.{◌≡◌};
ghost use Rattle.power.specs.Refusals.{power_refusal};

use refusal::{Layer, Refusal};

/// The fields of a cube model that are checked, by the numbers that they have in a refusal.
#[derive(Clone, Copy, PartialEq, Eq, Debug)]
pub enum CubeField {
    /// What the model draws at the setting 0.
    FixedDraw = 7,
}

/// Why a power model is not made or not loaded.
///
/// ```text
/// // power_tests: examples::of_what_is_told
/// Refusal::from(PowerFault::Broken { setting: 3 });   // of layer Power, number 12, value 3: it is printed as 12 3
/// ```
#[derive(Clone, Copy, PartialEq, Eq, Debug)]
pub enum PowerFault {
    /// The field is too great.
    Field(CubeField),
    /// The list has fewer numbers than are needed.
    Short {
        /// How many numbers are needed: 256.
        needed: usize,
    },
    /// The list breaks a law of the draws.
    Broken {
        /// The least setting at which it does.
        setting: u8,
    },
}

impl From<PowerFault> for Refusal {
    ghost from_gives = { λ fault refusal. refusal ≡ power_refusal fault };

    fn from(fault: PowerFault) -> Refusal {
        let (number, value) = match fault {
            PowerFault::Field(field) => (5, field as u64),
            PowerFault::Short { needed } => (10, needed as u64),
            PowerFault::Broken { setting } => (12, u64::from(setting)),
        };
        Refusal::with_value(Layer::Power, number, value)
    }
}
