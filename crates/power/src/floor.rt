// A model over another, whose clock is never set below a floor.
ghost use Rattle.std.specs.Prelude.{◌≡◌, ◌≤◌};
ghost use Rattle.power.specs.Draws.{floor_draw};
ghost use Rattle.power.specs.FloorLaws.{floor_bounded, floor_rising, floor_convex};

use super::model::PowerModel;

/// A model over another: its draw is the lower model's at the greater of the setting and the floor.
///
/// `lower` is the model below, and `floor` the least setting that it is asked for.
// No `Model`: its value would have to be these fields with what always holds of them, so that the laws can be proved
// of it.
#[derive(PartialEq, Eq, Debug, Drop)]
pub struct Floor<M> {
    lower: M,
    floor: u8,
    ghost fits: { floor ≤ 255 },
}

impl<M> Floor<M> {
    /// A model over the lower one with this floor. It never refuses: a floor is any setting from 0 to 255.
    ///
    /// ```text
    /// // power_tests: examples::of_a_floor
    /// let model = Floor::new(Cube::new(0, 1)?, 2);
    /// model.draw(0);   // 8, as at 2
    /// model.draw(3);   // 27
    /// ```
    pub fn new(lower: M, floor: u8) -> Floor<M>
        ensures lower { result.lower ≡ lower }
        ensures floor { result.floor ≡ floor }
    {
        Floor { lower, floor }
    }
}

impl<M: PowerModel> PowerModel for Floor<M> {
    ghost draws = { λ m. floor_draw (M.draws m.lower) m.floor };

    ghost bounded = { λ m. floor_bounded (M.draws m.lower) m.floor m.fits (M.bounded m.lower) };

    ghost rising = { λ m. floor_rising (M.draws m.lower) m.floor (M.rising m.lower) };

    ghost convex = { λ m. floor_convex (M.draws m.lower) m.floor (M.rising m.lower) (M.convex m.lower) };

    fn draw(&self, setting: u8) -> u32 {
        self.lower.draw(setting.max(self.floor))
    }
}
