//! Power models: what a processor draws at each clock setting.
//!
//! A model has a number of 32 bits for each setting, its draw, and answers it as often as it is asked. From one
//! setting to the next the draw rises or stays, and by no less than from the one before: with the draws 3, 5 and 7 the
//! next one is 9 or more.
//!
//! | model | its draw at s |
//! |---|---|
//! | [`Measured`] | the number that stands at s in the list that was loaded, and 0 before any was |
//! | [`Cube`] | the fixed draw, and the factor times s * s * s |
//! | [`Floor`] | that of the lower model at the greater of s and the floor |
//!
//! The laws are those of the trait [`PowerModel`], so whatever is generic over a model has them.
#![tactic(auto)]

mod cube;
mod cubes;
mod fault;
mod floor;
mod measured;
mod model;

pub use cube::Cube;
pub use fault::{CubeField, PowerFault};
pub use floor::Floor;
pub use measured::Measured;
pub use model::{PowerModel, SETTING_VALUES};
