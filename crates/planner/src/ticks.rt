// The ticks of a round, and compressed time.
ghost use Rattle.std.specs.Prelude.{◌≡◌, ℕ, ◌<◌, ◌≤◌, length, ◌&&◌, not};
ghost use Rattle.schedule.specs.Certificate.{listed};
ghost use Rattle.schedule.specs.Compressed.{compressed};
ghost use Rattle.schedule.specs.Rounds.{between};
ghost use Rattle.schedule.specs.Blocks.{first_tick, past_tick};
ghost use Rattle.planner.specs.Pair.{times_of};
ghost use Rattle.planner.specs.Ticks.{is_free_in, is_marked_in};

use super::demands::HORIZON;
use super::pair::Pair;

// The compressed time of each tick, and of the one after the last: the number of free ticks before it.
pub(super) fn compressed_times(free: &[bool; HORIZON]) -> [u16; HORIZON + 1]
    ensures { (t : ℕ) → t ≤ HORIZON → listed result t ≡ compressed (is_free_in free.now) t }
{
    let mut times = [0; HORIZON + 1];
    for (tick, free) in free.iter().enumerate() {
        times[tick + 1] = times[tick] + u16::from(*free);
    }
    times
}

// The ticks that a round takes: the free ones whose compressed time lies in its pair.
pub(super) fn taken_ticks(
    free: &[bool; HORIZON],
    times: &[u16; HORIZON + 1],
    pair: &Pair,
) -> [bool; HORIZON]
    ensures { (t : ℕ) → t < HORIZON
        → is_marked_in result t ≡ (is_free_in free.now t && between (times_of pair.now) (listed times.now t)) }
{
    let mut taken = [false; HORIZON];
    for (tick, free) in free.iter().enumerate() {
        taken[tick] = *free && pair.has(times[tick]);
    }
    taken
}

// Takes ticks from the free ones.
pub(super) fn take_ticks(free: &mut [bool; HORIZON], taken: &[bool; HORIZON])
    ensures { (t : ℕ) → t < HORIZON
        → is_free_in free.new t ≡ (is_free_in free.old t && not (is_marked_in taken.now t)) }
{
    for (tick, taken) in taken.iter().enumerate() {
        if *taken {
            free[tick] = false;
        }
    }
}

// The first of the ticks.
pub(super) fn first_tick(ticks: &[bool; HORIZON]) -> u16
    ensures { result ≡ first_tick (is_marked_in ticks.now) (length ticks.now) }
{
    let first = ticks.iter().position(|tick| *tick);
    first.unwrap_or(HORIZON) as u16
}

// The tick after the last of them.
pub(super) fn past_tick(ticks: &[bool; HORIZON]) -> u16
    ensures { result ≡ past_tick (is_marked_in ticks.now) (length ticks.now) }
{
    let last = ticks.iter().rposition(|tick| *tick);
    last.map_or(0, |tick| tick + 1) as u16
}
