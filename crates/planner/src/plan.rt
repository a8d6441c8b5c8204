// The units allocated so far.
ghost use Rattle.std.specs.Prelude.{◌≡◌, ℕ, ◌+◌, ◌-◌, ◌^◌, ◌<◌, ◌≤◌, length, slice_index};
ghost use Rattle.schedule.specs.Placing.{empty, low_end, place_at};

use super::demands::HORIZON;

// The units that are allocated to each tick so far, and the slack at each tick: by how much the units allocated from
// there on exceed those of the windows that start there or later.
#[derive(Drop)]
pub(super) struct Plan {
    pub(super) units: [u32; HORIZON],
    slack: [u32; HORIZON],
}

// Adds one to each slack.
fn raise(slack: &mut [u32])
    requires { (k : ℕ) → slice_index slack.old k + 1 < 2 ^ 32 }
    ensures { (k : ℕ) → k < length slack.old → slice_index slack.new k ≡ slice_index slack.old k + 1 }
{
    for value in slack {
        *value += 1;
    }
}

// Takes one from each slack.
fn lower(slack: &mut [u32])
    requires { (k : ℕ) → k < length slack.old → 0 < slice_index slack.old k }
    ensures { (k : ℕ) → k < length slack.old → slice_index slack.new k ≡ slice_index slack.old k - 1 }
{
    for value in slack {
        *value -= 1;
    }
}

impl Plan {
    ghost use Rattle.planner.specs.Plan.{state_of, HasRoom};

    // A plan in which nothing is allocated yet.
    pub(super) fn new() -> Plan
        ensures { state_of result ≡ empty }
    {
        Plan {
            units: [0; HORIZON],
            slack: [0; HORIZON],
        }
    }

    // The start of the hull of a window that starts at `from`.
    pub(super) fn hull_start(&self, from: usize) -> usize
        requires { from < HORIZON }
        ensures { result ≡ low_end (state_of self.now).slack from }
    {
        self.slack[..=from]
            .iter()
            .rposition(|&slack| slack == 0)
            .unwrap_or(0)
    }

    // Allocates a unit of a window that starts at `from` to the tick.
    pub(super) fn allocate(&mut self, from: usize, tick: usize)
        requires window { from < HORIZON }
        requires tick { tick < HORIZON }
        requires room { HasRoom 1 (state_of self.old) }
        requires slack { (k : ℕ) → tick < k → k ≤ from → 0 < (state_of self.old).slack k }
        ensures { state_of self.new ≡ place_at from tick (state_of self.old) }
    {
        self.units[tick] += 1;
        if from < tick {
            raise(&mut self.slack[from + 1..=tick]);
        } else {
            lower(&mut self.slack[tick + 1..=from]);
        }
    }
}
