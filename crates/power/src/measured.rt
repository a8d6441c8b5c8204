// A model whose draws were measured.
ghost use Rattle.std.specs.Prelude.{◌≡◌, ℕ, ◌<◌, ◌≤◌, replicate};
ghost use Rattle.power.specs.Laws.{Lawful};
ghost use Rattle.power.specs.Draws.{draw_at};
ghost use Rattle.power.specs.Breaks.{is_break_at, first_break};
ghost use Rattle.power.specs.Loading.{list_draw, load_answer, numbers_after, Accepts, NamesLeast};

use super::fault::PowerFault;
use super::model::{PowerModel, SETTING_VALUES};

/// A model of 256 numbers that the caller brings, one draw for each setting.
///
/// They are zeros until a list is loaded.
// No `Model`: its value would have to be these fields with what always holds of them, so that the laws can be proved
// of it.
#[derive(PartialEq, Eq, Debug, Drop)]
pub struct Measured {
    numbers: [u32; SETTING_VALUES],
    ghost bounded: { (s : ℕ) → s ≤ 255 → draw_at numbers s ≤ 4294967295 },
    ghost lawful: { Lawful 255 (draw_at numbers) },
}

// Whether the draws break a law at the setting.
fn is_break_at(draws: &[u32; SETTING_VALUES], setting: usize) -> bool
    requires { (1 ≤ setting) × (setting < SETTING_VALUES) }
    ensures { result ≡ is_break_at (draw_at draws.now) setting }
{
    let draw = u64::from(draws[setting]);
    let before = u64::from(draws[setting - 1]);
    draw < before || (2 <= setting && draw + u64::from(draws[setting - 2]) < 2 * before)
}

// The least setting at which the draws break a law.
fn first_break(draws: &[u32; SETTING_VALUES]) -> Option<u8>
    ensures { result ≡ first_break (draw_at draws.now) }
{
    // As `usize`: a range of `u8` up to 255 has to keep whether it is done.
    (1..SETTING_VALUES)
        .find(|&setting| is_break_at(draws, setting))
        .map(|setting| setting as u8)
}

impl Measured {
    /// A model with 256 zeros. It never refuses.
    ///
    /// ```text
    /// // power_tests: examples::of_a_measured_model
    /// let model = Measured::new();
    /// model.draw(255);   // 0
    /// ```
    pub fn new() -> Measured
        ensures { result.numbers ≡ replicate SETTING_VALUES 0 }
    {
        Measured {
            numbers: [0; SETTING_VALUES],
        }
    }

    /// Replaces all numbers by the first 256 of the list. Where it refuses, all numbers are as before.
    ///
    /// # Refusals
    ///
    /// - [`PowerFault::Short`]: the list has fewer than 256 numbers.
    /// - [`PowerFault::Broken`]: the first 256 break a law of the draws, at this setting and at none before it.
    ///
    /// ```text
    /// // power_tests: examples::of_a_measured_model
    /// let mut list = [7; 256];
    /// model.load_draws(&list);   // Ok(()), and model.draw(255) is 7
    /// list[255] = 6;
    /// model.load_draws(&list);   // Err(PowerFault::Broken { setting: 255 }), and model.draw(255) is 7
    /// model.load_draws(&[7; 255]);   // Err(PowerFault::Short { needed: 256 })
    /// ```
    pub fn load_draws(&mut self, list: &[u32]) -> Result<(), PowerFault>
        ensures answer { result ≡ load_answer list.now }
        ensures accepts { Accepts list.now result }
        ensures least { NamesLeast (list_draw list.now) result }
        ensures numbers { self.new.numbers ≡ numbers_after self.old.numbers list.now }
    {
        let draws = list.first_chunk().ok_or(PowerFault::Short {
            needed: SETTING_VALUES,
        })?;
        if let Some(setting) = first_break(draws) {
            return Err(PowerFault::Broken { setting });
        }
        self.numbers = *draws;
        Ok(())
    }
}

impl Default for Measured {
    ghost use Rattle.power.specs.declared.model.TheConstants.{SETTING_VALUES};

    ghost is_default = { λ m. m.numbers ≡ replicate SETTING_VALUES 0 };

    fn default() -> Measured {
        Measured::new()
    }
}

impl PowerModel for Measured {
    ghost draws = { λ m. draw_at m.numbers };

    ghost bounded = { λ m. m.bounded };

    ghost rising = { λ m. m.lawful.0 };

    ghost convex = { λ m. m.lawful.1 };

    fn draw(&self, setting: u8) -> u32 {
        self.numbers[setting as usize]
    }
}
