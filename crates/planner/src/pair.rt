// Pairs of compressed times.
ghost use Rattle.std.specs.Prelude.{◌≡◌, ◌<◌, ◌≤◌, length};
ghost use Rattle.planner.specs.declared.demands.TheConstants.{MOST_DEMANDS};

use super::demands::{Demand, work_inside};

// A pair of compressed times, and the work of the windows that lie inside.
#[derive(Clone, Copy)]
pub(super) struct Pair {
    pub(super) low: u16,
    pub(super) high: u16,
    pub(super) work: u32,
    ghost proper: { low < high },
}

impl Pair {
    ghost use Rattle.schedule.specs.BestPair.{extent, beats};
    ghost use Rattle.schedule.specs.Rounds.{between};
    ghost use Rattle.planner.specs.Pair.{times_of, IsCounted};

    // The pair from low to high, with its work.
    pub(super) fn new(windows: &[Demand], low: u16, high: u16) -> Pair
        requires proper { low < high }
        requires few { length windows.now ≤ MOST_DEMANDS }
        ensures pair { times_of result ≡ record { low = low; high = high } }
        ensures work { IsCounted windows.now result }
    {
        Pair {
            low,
            high,
            work: work_inside(windows, low, high),
        }
    }

    // How long it is.
    pub(super) fn extent(&self) -> u16
        ensures { result ≡ extent (times_of self.now) }
    {
        self.high - self.low
    }

    // Whether a compressed time lies in it.
    pub(super) fn has(&self, time: u16) -> bool
        ensures { result ≡ between (times_of self.now) time }
    {
        self.low <= time && time < self.high
    }

    // Whether it goes before the other: it has more work over length; or as much, and starts earlier; or starts there
    // too, and ends later.
    pub(super) fn beats(&self, other: &Pair) -> bool
        ensures { result ≡ beats self.now.work (times_of self.now) other.now.work (times_of other.now) }
    {
        let here = u64::from(self.work) * u64::from(other.extent());
        let there = u64::from(other.work) * u64::from(self.extent());
        there < here
            || here == there
                && (self.low < other.low || self.low == other.low && other.high < self.high)
    }
}
