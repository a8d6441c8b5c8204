// What the settings in force draw.
ghost use Rattle.std.specs.Prelude.{◌≡◌};
ghost use Rattle.power.specs.Draws.{total_draw};

use super::book::Book;
use planner::HORIZON;
use power::PowerModel;

/// The sum of the model's draws over settings, one for each tick planned ahead, in the model's unit. It never
/// refuses, whatever settings the caller brings.
///
/// ```text
/// // book_tests: sum::a_few_settings_draw_their_cubes
/// // The settings 1, 1, 1, 1, 3, 3 and then 0, where a setting draws its cube: 4 * 1 + 2 * 27 = 58.
/// total_draw(&Cube::new(0, 1)?, &settings)
/// ```
pub fn total_draw<M: PowerModel>(model: &M, settings: &[u8; HORIZON]) -> u64
    ensures { result ≡ total_draw (M.draws model.now) settings.now }
{
    settings
        .iter()
        .map(|setting| u64::from(model.draw(*setting)))
        .sum()
}

impl Book {
    ghost use Rattle.book.specs.Bills.{bill_of};

    /// What the settings in force draw under the model: the sum of its draws at the 256 settings, in the model's
    /// unit. It never refuses.
    ///
    /// ```text
    /// // book_tests: examples::of_bill
    /// // Settings 2, 1 and then 0, where a setting draws its cube: 8 + 1 = 9.
    /// book.bill(&Cube::new(0, 1)?)
    /// ```
    pub fn bill<M: PowerModel>(&self, model: &M) -> u64
        ensures { result ≡ bill_of (M.draws model.now) self.now }
    {
        total_draw(model, &self.setting_bytes())
    }
}
