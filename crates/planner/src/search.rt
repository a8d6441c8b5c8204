// The search for the best pair: the one with the greatest work over length, from a start to an end of the windows.
ghost use Rattle.std.specs.Prelude.{◌≡◌, ◌<◌, ◌≤◌, length, IfSome};
ghost use Rattle.std.specs.Option.{option_map};
ghost use Rattle.std.specs.List.{AllByRecursion};
ghost use Rattle.schedule.specs.BestPair.{better, best_end};
ghost use Rattle.planner.specs.Pair.{times_of, IsCounted, best_pair_of};
ghost use Rattle.planner.specs.declared.demands.TheConstants.{MOST_DEMANDS};

use super::demands::Demand;
use super::pair::Pair;

// The better of the best pair so far and the one from low to high, if low is before high.
fn better(windows: &[Demand], best: Pair, low: u16, high: u16) -> Pair
    requires few { length windows.now ≤ MOST_DEMANDS }
    requires work { IsCounted windows.now best }
    ensures pair { times_of result ≡ better windows.now (times_of best) (record { low = low; high = high }) }
    ensures work { IsCounted windows.now result }
{
    if low < high {
        let pair = Pair::new(windows, low, high);
        if pair.beats(&best) {
            return pair;
        }
    }
    best
}

// The best of the best pair so far and those from low to the ends of the windows.
fn best_end(windows: &[Demand], low: u16, so_far: Pair) -> Pair
    requires few { length windows.now ≤ MOST_DEMANDS }
    requires work { IsCounted windows.now so_far }
    ensures pair { times_of result ≡ best_end windows.now low windows.now (times_of so_far) }
    ensures work { IsCounted windows.now result }
{
    let mut best = so_far;
    for window in windows {
        best = better(windows, best, low, window.to);
    }
    best
}

// The best pair from a start to an end of the windows, if there are any.
pub(super) fn best_pair(windows: &[Demand]) -> Option<Pair>
    requires few { length windows.now ≤ MOST_DEMANDS }
    requires proper { AllByRecursion (λ w. w.from < w.to) windows.now }
    ensures pair { option_map times_of result ≡ best_pair_of windows.now }
    ensures work { IfSome result (IsCounted windows.now) }
{
    let first = windows.first()?;
    let mut best = Pair::new(windows, first.from, first.to);
    for window in windows {
        best = best_end(windows, window.from, best);
    }
    Some(best)
}
