// The rounds of critical blocks: each removes demands and takes their ticks, until no demand is left.
ghost use Rattle.std.specs.Prelude.{◌≡◌, ◌<◌, ◌≤◌, length, map, take, MatchOption, ◌∷◌, []};
ghost use Rattle.std.specs.List.{AllByRecursion};
ghost use Rattle.schedule.specs.Certificate.{listed};
ghost use Rattle.schedule.specs.Compressed.{seen};
ghost use Rattle.schedule.specs.BestPair.{extent};
ghost use Rattle.schedule.specs.Rounds.{unplaced};
ghost use Rattle.schedule.specs.Blocks.{first_tick, past_tick};
ghost use Rattle.planner.specs.Pair.{times_of};
ghost use Rattle.planner.specs.Ticks.{is_marked_in};
ghost use Rattle.planner.specs.Plannable.{IsPlannable};
ghost use Rattle.planner.specs.Blocks.{critical_blocks};

use super::blocks::RelativeBlock;
use super::demands::{Demand, Demands, HORIZON, MOST_DEMANDS};
use super::pair::Pair;
use super::search::best_pair;
use super::ticks::{compressed_times, first_tick, past_tick, take_ticks, taken_ticks};
use std::marker::Model;

impl Demand {
    // The demand as seen in compressed time.
    fn seen(&self, times: &[u16; HORIZON + 1]) -> Demand
        requires { (self.now.from ≤ HORIZON) × (self.now.to ≤ HORIZON) }
        ensures { result ≡ seen (listed times.now) self.now }
    {
        Demand {
            from: times[usize::from(self.from)],
            to: times[usize::from(self.to)],
            units: self.units,
        }
    }
}

// The demands in compressed time, with empty ones after them.
fn windows(demands: &[Demand], times: &[u16; HORIZON + 1]) -> [Demand; MOST_DEMANDS]
    requires few { length demands.now ≤ MOST_DEMANDS }
    requires within { AllByRecursion (λ d. (d.from < d.to) × (d.to ≤ HORIZON)) demands.now }
    ensures { take (length demands.now) result ≡ map (seen (listed times.now)) demands.now }
{
    let mut windows = [Demand::default(); MOST_DEMANDS];
    for (index, demand) in demands.iter().enumerate() {
        windows[index] = demand.seen(times);
    }
    windows
}

// Removes the demands that lie inside the pair: the others come first, and their number is answered.
fn remove_inside(demands: &mut [Demand], times: &[u16; HORIZON + 1], pair: &Pair) -> usize
    requires within { AllByRecursion (λ d. (d.from < d.to) × (d.to ≤ HORIZON)) demands.old }
    ensures left { take result demands.new ≡ unplaced (listed times.now) (times_of pair.now) demands.old }
    ensures count { result ≤ length demands.new }
{
    let mut count = 0;
    for index in 0..demands.len() {
        let demand = demands[index];
        if !demand.seen(times).is_inside(pair.low, pair.high) {
            demands[count] = demand;
            count += 1;
        }
    }
    count
}

// The block of a round, by its pair and the ticks that it takes.
fn round_block(pair: &Pair, taken: &[bool; HORIZON]) -> RelativeBlock
    ensures speed { result.speed ≡ (pair.now.work, extent (times_of pair.now)) }
    ensures from { result.from ≡ first_tick (is_marked_in taken.now) (length taken.now) }
    ensures to { result.to ≡ past_tick (is_marked_in taken.now) (length taken.now) }
{
    RelativeBlock {
        speed: (pair.work, pair.extent()),
        from: first_tick(taken),
        to: past_tick(taken),
    }
}

// The rounds to come, which answer critical blocks.
#[derive(Drop)]
pub(super) struct Rounds {
    // Which ticks are free.
    free: [bool; HORIZON],
    // The demands that are left.
    demands: [Demand; MOST_DEMANDS],
    // How many they are: they come first, and what stands after them means nothing.
    count: usize,
}

impl Model for Rounds {
    ghost use Rattle.std.specs.Prelude.{◌≤◌, List, take};
    ghost use Rattle.planner.specs.declared.blocks.RelativeBlock.{RelativeBlock};
    ghost use Rattle.planner.specs.Ticks.{is_free_in};
    ghost use Rattle.planner.specs.Rounds.{blocks_to_come, AreLeft};
    ghost use Rattle.planner.specs.declared.demands.TheConstants.{MOST_DEMANDS};

    ghost Value = { List RelativeBlock };

    ghost view = { λ r. blocks_to_come (is_free_in r.free) (take r.count r.demands) };

    ghost invariant = { λ r. (r.count ≤ MOST_DEMANDS) × AreLeft (is_free_in r.free) (take r.count r.demands) };
}

impl Rounds {
    // The rounds of the demands that have work left.
    pub(super) fn new(demands: &Demands) -> Rounds
        ensures blocks { result ≡ critical_blocks demands.now }
        ensures plannable { IsPlannable demands.now }
    {
        let mut open = [Demand::default(); MOST_DEMANDS];
        let mut count = 0;
        for demand in demands.list {
            if demand.units > 0 {
                open[count] = *demand;
                count += 1;
            }
        }
        Rounds {
            free: [true; HORIZON],
            demands: open,
            count,
        }
    }

    // The block of the next round, or none where no demand is left.
    pub(super) fn next_block(&mut self) -> Option<RelativeBlock>
        ensures { MatchOption result (self.old ≡ []) (λ block. self.old ≡ block ∷ self.new) }
    {
        let times = compressed_times(&self.free);
        let windows = windows(&self.demands[..self.count], &times);
        let pair = best_pair(&windows[..self.count])?;
        let taken = taken_ticks(&self.free, &times, &pair);
        take_ticks(&mut self.free, &taken);
        self.count = remove_inside(&mut self.demands[..self.count], &times, &pair);
        Some(round_block(&pair, &taken))
    }
}
