// The demands that settings are made for.
ghost use Rattle.std.specs.Prelude.{◌≡◌, ◌≤◌, ◌↔◌, length, IfSome, IsSome, IsTrue};
ghost use Rattle.schedule.specs.Demands.{Sorted, Sound};
ghost use Rattle.schedule.specs.InForce.{horizon};
ghost use Rattle.schedule.specs.Work.{inside, work};
ghost use Rattle.planner.specs.Plannable.{IsPlannable};

use std::marker::Model;

/// How many ticks are planned: the one that comes next and the 255 after it.
pub const HORIZON: usize = 256;

/// How many demands can be planned for at most.
pub const MOST_DEMANDS: usize = 64;

/// An open job seen from now: its window in ticks from now, and the units of its work that are left.
///
/// `Demand::default()` asks for nothing: all its numbers are 0.
#[derive(Clone, Copy)]
pub struct Demand {
    /// The first tick of the window: 0 is the tick that comes next.
    pub from: u16,
    /// The tick after the last of the window, at most 256 where units are left.
    pub to: u16,
    /// The units of work left: a tick with the setting s does s of them.
    pub units: u16,
}

impl Model for Demand {
    ghost use Rattle.schedule.specs.Demands.{Demand as DemandView};

    ghost Value = { DemandView };

    ghost view = { λ d. record { from = d.from; to = d.to; units = d.units } };

    ghost inverse = { λ d. record { from = d.from; to = d.to; units = d.units } };
}

impl Default for Demand {
    ghost is_default = { λ d. d ≡ record { from = 0; to = 0; units = 0 } };

    fn default() -> Demand {
        Demand {
            from: 0,
            to: 0,
            units: 0,
        }
    }
}

impl Demand {
    // Whether its window lies inside the interval from low to high. `&` takes no branch, as `&&` would, and is faster
    // here.
    pub(super) fn is_inside(&self, low: u16, high: u16) -> bool
        ensures { result ≡ inside low high self.now }
    {
        (low <= self.from) & (self.to <= high)
    }
}

// The work of the windows that lie inside the interval from low to high: each window's units once or not at all, with
// no branch.
pub(super) fn work_inside(windows: &[Demand], low: u16, high: u16) -> u32
    requires { length windows.now ≤ MOST_DEMANDS }
    ensures { result ≡ work windows.now low high }
{
    windows
        .iter()
        .map(|window| u32::from(window.is_inside(low, high)) * u32::from(window.units))
        .sum()
}

/// Demands that settings can be made for: at most 64, each with its window within 256 ticks, in order of deadline.
///
/// `new` tests a list. Where it is known to be such a list, `Demands { list }` tests nothing.
#[derive(Drop)]
pub struct Demands<'a> {
    /// The demands, in order of deadline.
    pub list: &'a [Demand],
}

impl<'a> Model for Demands<'a> {
    ghost use Rattle.std.specs.Prelude.{List};
    ghost use Rattle.schedule.specs.Demands.{Demand as DemandView};
    ghost use Rattle.planner.specs.Plannable.{IsPlannable};

    ghost Value = { List DemandView };

    ghost view = { λ d. d.list.now };

    ghost invariant = { λ d. IsPlannable d.list.now };
}

// Whether each demand has its window within 256 ticks.
fn has_windows(list: &[Demand]) -> bool
    ensures { IsTrue result ↔ Sound horizon list.now }
{
    list.iter().all(|demand| demand.units == 0
        || demand.from < demand.to && usize::from(demand.to) <= HORIZON)
}

// Whether the demands come in order of deadline.
fn is_sorted(list: &[Demand]) -> bool
    ensures { IsTrue result ↔ Sorted list.now }
{
    list.is_sorted_by(|first, second| first.to <= second.to)
}

impl<'a> Demands<'a> {
    /// The demands of the list, where settings can be made for them.
    ///
    /// # Refusals
    ///
    /// - `None`: there are more than 64; or one with units left has a window of no tick, or one that ends after tick
    ///   256; or one ends before one that stands before it in the list.
    ///
    /// ```text
    /// // planner_tests: examples::of_demands
    /// let late = Demand { from: 0, to: 3, units: 1 };
    /// let early = Demand { from: 0, to: 2, units: 3 };
    /// Demands::new(&[early, late]);   // Some(..)
    /// Demands::new(&[late, early]);   // None
    /// Demands::new(&[Demand { from: 3, to: 3, units: 1 }]);   // None
    /// ```
    pub fn new(list: &'a [Demand]) -> Option<Demands<'a>>
        ensures some { IsSome result ↔ IsPlannable list.now }
        ensures list { IfSome result (λ demands. demands ≡ list.now) }
    {
        if list.len() <= MOST_DEMANDS && has_windows(list) && is_sorted(list) {
            Some(Demands { list })
        } else {
            None
        }
    }

    /// The work of the demands whose windows lie inside the interval from low to high, in units. It never refuses.
    ///
    /// ```text
    /// // planner_tests: examples::of_work_inside, for [0, 2) with 3 units and [0, 3) with 1
    /// demands.work_inside(0, 2);   // 3
    /// demands.work_inside(0, 3);   // 4
    /// demands.work_inside(1, 3);   // 0
    /// ```
    pub fn work_inside(&self, low: u16, high: u16) -> u32
        ensures { result ≡ work self.now low high }
    {
        work_inside(self.list, low, high)
    }
}
