// The hull of a window: where one unit more of it can be allocated.
ghost use Rattle.std.specs.Prelude.{◌≡◌, ◌<◌, ◌≤◌};
ghost use Rattle.schedule.specs.Placing.{place_at, spot};
ghost use Rattle.planner.specs.declared.demands.TheConstants.{HORIZON};

use super::demands::HORIZON;
use super::plan::Plan;
use queue::{PlannedTick, TickQueue};

// The hull of the window [from, to): the ticks from its start to the end of the window. They are queued, the one with
// the fewest units first; ticks before the start may be queued too.
#[derive(Drop)]
pub(super) struct Hull<'a> {
    from: usize,
    to: usize,
    start: usize,
    ticks: TickQueue<'a>,
    ghost proper: { from < to },
    ghost in_sight: { to ≤ HORIZON },
}

impl<'a> Hull<'a> {
    ghost use Rattle.planner.specs.Plan.{state_of, HasRoom};
    ghost use Rattle.planner.specs.Hull.{IsHull};

    // The hull of a window in a plan, with its queue in these slots.
    pub(super) fn new(
        slots: &'a mut [PlannedTick; HORIZON],
        plan: &Plan,
        from: usize,
        to: usize,
    ) -> Hull<'a>
        requires proper { from < to }
        requires in_sight { to ≤ HORIZON }
        ensures hull { IsHull (state_of plan.now) result }
        ensures window { (result.from ≡ from) × (result.to ≡ to) }
    {
        let start = plan.hull_start(from);
        let mut ticks = TickQueue::new(slots);
        for tick in start..to {
            let units = plan.units[tick];
            let tick = tick as u16;
            ticks.put(PlannedTick { units, tick }).unwrap();
        }
        Hull {
            from,
            to,
            start,
            ticks,
        }
    }

    // Allocates one unit more of the window, to the tick of the hull with the fewest units.
    pub(super) fn allocate_unit(&mut self, plan: &mut Plan)
        requires hull { IsHull (state_of plan.old) self.old }
        requires room { HasRoom 1 (state_of plan.old) }
        ensures allocated { state_of plan.new
            ≡ place_at self.old.from (spot self.old.from self.old.to (state_of plan.old)) (state_of plan.old) }
        ensures hull { IsHull (state_of plan.new) self.new }
        ensures window { (self.new.from ≡ self.old.from) × (self.new.to ≡ self.old.to) }
    {
        let ticks = &mut self.ticks;
        let lowest = loop {
            let next = ticks.least().unwrap();
            if usize::from(next.tick) >= self.start {
                break next;
            }
            ticks.take();
        };
        let tick = usize::from(lowest.tick);
        plan.allocate(self.from, tick);
        let units = lowest.units + 1;
        ticks.replace_least(PlannedTick { units, ..lowest });
        if tick < self.from {
            self.start = plan.hull_start(self.from);
        }
    }
}
