// Planned ticks: the fewest units first, then the earliest tick.
ghost use Rattle.std.specs.Prelude.{◌≡◌};
ghost use Rattle.queue.specs.Elements.{is_tick_before, is_tick_same};
ghost use Rattle.std.proofs.Common.{rules};

use super::fault::QueueFault;
use super::heap::Queue;
use super::order::Rank;

/// A tick of the plan, with the units that are allocated to it so far.
#[derive(Clone, Copy, PartialEq, Eq, Debug, Default)]
pub struct PlannedTick {
    /// The units allocated to it: the fewest come first.
    pub units: u32,
    /// Which tick it is, counted from now: of as many units the earliest comes first.
    pub tick: u16,
}

// Written for each element type, with laws that the check finds: a key with an `Ord` would hide what before and same
// rank are.
impl Rank for PlannedTick {
    ghost before = { is_tick_before };

    ghost same = { is_tick_same };

    ghost one = { Prim.search rules };

    ghost ordered = { Prim.search rules };

    ghost tied = { Prim.search rules };

    fn is_before(&self, other: &PlannedTick) -> bool {
        (self.units, self.tick) < (other.units, other.tick)
    }
}

/// A queue of planned ticks, in slots that the caller lends.
pub type TickQueue<'a> = Queue<'a, PlannedTick>;

// `put` is not of every `Queue`: of elements of no size there can be 2^64 − 1 slots, and no `usize` counts one more.
impl TickQueue<'_> {
    ghost use Rattle.queue.specs.Slots.{slots_of};
    ghost use Rattle.queue.specs.Says.{PutLeaves, put_answer};

    /// Adds a tick. Where it refuses, all is as before.
    ///
    /// # Refusals
    ///
    /// - [`QueueFault::Full`]: every slot is taken.
    ///
    /// ```text
    /// // queue_tests: examples::of_a_tick_queue
    /// let mut slots = [PlannedTick::default(); 2];
    /// let mut ticks = TickQueue::new(&mut slots);
    /// ticks.put(PlannedTick { units: 2, tick: 0 });   // Ok(())
    /// ticks.put(PlannedTick { units: 1, tick: 7 });   // Ok(())
    /// ticks.put(PlannedTick { units: 0, tick: 3 });   // Err(QueueFault::Full { needed: 3 })
    /// ```
    pub fn put(&mut self, tick: PlannedTick) -> Result<(), QueueFault>
        ensures answer { result ≡ put_answer (slots_of self.old) }
        ensures after { PutLeaves tick (slots_of self.old) (slots_of self.new) }
        ensures lender { self.new.slots.ghost_name ≡ self.old.slots.ghost_name }
    {
        let needed = self.slots.len() + 1;
        self.try_put(tick).map_err(|_| QueueFault::Full { needed })
    }
}
