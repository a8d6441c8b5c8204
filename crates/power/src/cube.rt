// A model that follows the cube of the setting.
ghost use Rattle.std.specs.Prelude.{◌≡◌, ◌≤◌};
ghost use Rattle.std.specs.Result.{result_map_both};
ghost use Rattle.power.specs.Draws.{cube_draw};
ghost use Rattle.power.specs.declared.cube.TheConstants.{MAX_FIXED};
ghost use Rattle.power.specs.Cubes.{new_cube};
ghost use Rattle.power.specs.CubeLaws.{cube_draw_bounded, cube_rising, cube_convex};

use super::cubes::cubed;
use super::fault::{CubeField, PowerFault};
use super::model::PowerModel;

// The greatest fixed draw: with it no draw is above 4,294,967,295.
const MAX_FIXED: u32 = 66_000_000;

/// A model whose draw is a fixed number, and a factor times the cube of the setting.
///
/// `fixed` is what it draws at 0, at most 66,000,000; `factor` is what each unit of the cube adds, at most 255.
// No `Model`: its value would have to be these fields with what always holds of them, so that the laws can be proved
// of it.
#[derive(Clone, Copy, PartialEq, Eq, Debug)]
pub struct Cube {
    fixed: u32,
    factor: u8,
    ghost fits: { (fixed ≤ MAX_FIXED) × (factor ≤ 255) },
}

impl Cube {
    /// A model with this fixed draw and this factor.
    ///
    /// # Refusals
    ///
    /// - [`PowerFault::Field(CubeField::FixedDraw)`]: the fixed draw is above 66,000,000.
    ///
    /// ```text
    /// // power_tests: examples::of_a_cube_model
    /// let model = Cube::new(10, 2)?;
    /// model.draw(3);   // 64
    /// Cube::new(66_000_001, 2);   // Err(PowerFault::Field(CubeField::FixedDraw))
    /// ```
    pub fn new(fixed: u32, factor: u8) -> Result<Cube, PowerFault>
        ensures { result_map_both (λ model. (model.fixed, model.factor)) (λ fault. fault) result
            ≡ new_cube fixed factor }
    {
        if fixed > MAX_FIXED {
            return Err(PowerFault::Field(CubeField::FixedDraw));
        }
        Ok(Cube { fixed, factor })
    }
}

impl PowerModel for Cube {
    ghost draws = { λ m. cube_draw m.fixed m.factor };

    ghost bounded = { λ m. cube_draw_bounded m.fixed m.factor m.fits };

    ghost rising = { λ m. cube_rising m.fixed m.factor };

    ghost convex = { λ m. cube_convex m.fixed m.factor };

    fn draw(&self, setting: u8) -> u32 {
        self.fixed + u32::from(self.factor) * cubed(setting)
    }
}
