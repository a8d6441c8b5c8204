// The settings in force: the units of the demands are allocated one by one, in order of deadline.
ghost use Rattle.std.specs.Prelude.{◌≡◌, ◌≤◌};
ghost use Rattle.schedule.specs.Certificate.{listed};
ghost use Rattle.schedule.specs.Demands.{Windowed};
ghost use Rattle.schedule.specs.InForce.{horizon, InForce, Same, settings_in_force};
ghost use Rattle.schedule.specs.Placing.{fill};
ghost use Rattle.planner.specs.Plan.{state_of, HasRoom};

use super::demands::{Demand, Demands, HORIZON};
use super::hull::Hull;
use super::plan::Plan;
use queue::PlannedTick;

// Allocates the units of a demand, one after the other.
fn allocate_demand(plan: &mut Plan, demand: &Demand)
    requires window { Windowed HORIZON demand.now }
    requires room { HasRoom 65535 (state_of plan.old) }
    // As a number of 16 bits, which the model of a demand does not say.
    ensures units { demand.now.units ≤ 65535 }
    ensures filled { state_of plan.new ≡ fill demand.now.from demand.now.to demand.now.units (state_of plan.old) }
{
    if demand.units == 0 {
        return;
    }
    let mut slots = [PlannedTick::default(); HORIZON];
    let mut hull = Hull::new(
        &mut slots,
        plan,
        usize::from(demand.from),
        usize::from(demand.to),
    );
    for _ in 0..demand.units {
        hull.allocate_unit(plan);
    }
}

/// The settings in force for these demands: for each of 256 ticks from now the units that are worked off in it.
///
/// It never refuses. It knows no top: a setting is as great as the demands need.
///
/// ```text
/// // planner_tests: examples::of_settings
/// let list = [
///     Demand { from: 0, to: 2, units: 3 },
///     Demand { from: 0, to: 3, units: 1 },
/// ];
/// settings(&Demands::new(&list)?);   // 2, 1 and 1, and 0 for the other 253 ticks
/// ```
pub fn settings(demands: &Demands) -> [u32; HORIZON]
    ensures settings { Same horizon (listed result) (settings_in_force demands.now) }
    ensures in_force { InForce horizon demands.now (listed result) }
{
    let mut plan = Plan::new();
    for demand in demands.list {
        allocate_demand(&mut plan, demand);
    }
    plan.units
}
