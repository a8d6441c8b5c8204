// The settings in force of a book.
ghost use Rattle.std.specs.Prelude.{◌≡◌, ◌≤◌, length, All, OnOk};
ghost use Rattle.schedule.specs.Certificate.{listed};
ghost use Rattle.schedule.specs.InForce.{horizon, InForce, Same, settings_in_force};
ghost use Rattle.book.specs.Demands.{demands};
ghost use Rattle.book.specs.Book.{IsOpenAt, IsInOrder};

use super::book::Book;
use super::demands::demands_of;
use super::fault::BookFault;
use super::table::PLACES;
use layout::Job;
use planner::{Demand, HORIZON};

// The settings in force for open jobs.
fn settings_in_force(jobs: &[Job], now: u64) -> [u32; HORIZON]
    requires few { length jobs.now ≤ PLACES }
    requires in_order { IsInOrder jobs.now }
    requires open { All (IsOpenAt now) jobs.now }
    ensures settings { Same horizon (listed result) (settings_in_force (demands now jobs.now)) }
    ensures in_force { InForce horizon (demands now jobs.now) (listed result) }
{
    let mut demanded = [Demand::default(); PLACES];
    planner::settings(&demands_of(&mut demanded, jobs, now))
}

impl Book {
    ghost use Rattle.book.specs.Book.{IsLawful};
    ghost use Rattle.book.specs.Settings.{settings_of, settings_outcome};

    // The settings in force as bytes, which they fit since none is above the top.
    pub(super) fn setting_bytes(&self) -> [u8; HORIZON]
        ensures settings { Same horizon (listed result) (settings_of self.now) }
        ensures in_force { InForce horizon (demands self.now.now self.now.jobs) (listed result) }
        ensures lawful { IsLawful self.now }
    {
        let settings = settings_in_force(self.jobs.jobs(), self.tick);
        let mut bytes = [0; HORIZON];
        // By index, since the bound on a setting, which the cast needs, is known of its tick.
        for (tick, setting) in settings.iter().enumerate() {
            bytes[tick] = *setting as u8;
        }
        bytes
    }

    /// Writes the settings in force, one for each tick from now on, into the first 256 elements of the list.
    ///
    /// # Refusals
    ///
    /// The list is as it was then.
    ///
    /// - [`BookFault::Short`]: the list has fewer than 256 elements.
    ///
    /// ```text
    /// // book_tests: examples::of_settings_and_a_tick
    /// let mut settings = [0; HORIZON];
    /// book.settings(&mut settings)?; // 2, 1, and then 0
    /// ```
    pub fn settings(&self, list: &mut [u8]) -> Result<(), BookFault>
        ensures answer { result ≡ (settings_outcome self.entry.now list.old).answer }
        ensures list { list.new ≡ (settings_outcome self.entry.now list.old).list }
        ensures in_force { OnOk result
            (InForce horizon (demands self.entry.now.now self.entry.now.jobs) (listed list.new)) }
    {
        if list.len() < HORIZON {
            return Err(BookFault::Short { needed: HORIZON });
        }
        list[..HORIZON].copy_from_slice(&self.setting_bytes());
        Ok(())
    }
}
