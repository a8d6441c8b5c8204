// What every power model has.
ghost use Rattle.std.specs.Prelude.{◌≡◌, ℕ, ◌≤◌};
ghost use Rattle.power.specs.Laws.{Rising, Convex};

/// How many values a setting can have: 0 to 255.
pub const SETTING_VALUES: usize = 256;

/// What a processor draws in a tick at each of the settings 0 to 255, in the unit that the model's numbers are given
/// in.
///
/// The ghost member `draws` is the model's numbers D(0) to D(255). Whatever is generic over a model has its laws: no
/// number is above 4,294,967,295, they never fall as the setting rises, and no step up adds less than the one before.
pub trait PowerModel {
    ghost draws: { Self → ℕ → ℕ };

    /// The draw of one tick at the setting. It never refuses, and is the same as often as it is asked.
    ///
    /// ```text
    /// // power_tests: examples::of_a_cube_model
    /// let model = Cube::new(10, 2)?;
    /// model.draw(0);   // 10
    /// model.draw(3);   // 64, which is 10 + 2 * 27
    /// ```
    fn draw(&self, setting: u8) -> u32
        ensures { result ≡ draws self.now setting };

    ghost bounded: { (m : Self) (s : ℕ) → s ≤ 255 → draws m s ≤ 4294967295 };

    ghost rising: { (m : Self) → Rising 255 (draws m) };

    ghost convex: { (m : Self) → Convex 255 (draws m) };
}
