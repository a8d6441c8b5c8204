// The critical blocks of a book.
ghost use Rattle.std.specs.Prelude.{◌≡◌, ◌≤◌, ◌++◌, length, map, drop, OnOk};
ghost use Rattle.schedule.specs.InForce.{horizon};
ghost use Rattle.schedule.specs.Theory.{Blocked};
ghost use Rattle.book.specs.Demands.{demands};
ghost use Rattle.layout.specs.declared.job.TheConstants.{LAST_TICK};
ghost use Rattle.book.specs.Blocks.{block_in_time, blocks_outcome};

use super::book::Book;
use super::demands::demands_of;
use super::fault::BookFault;
use super::table::PLACES;
use planner::{Demand, RelativeBlock, critical_blocks};

/// A critical block: ticks with one exact speed. Ticks of other blocks may lie between its first and its last.
#[derive(Clone, Copy, PartialEq, Eq, Debug, Default)]
pub struct CriticalBlock {
    /// The exact speed: the block's work in units, and its length in ticks.
    pub speed: (u32, u16),
    /// The first tick.
    pub start: u64,
    /// The tick after the last.
    pub end: u64,
}

impl CriticalBlock {
    // A block of the planner, whose ticks count from now.
    fn in_time(block: &RelativeBlock, now: u64) -> CriticalBlock
        requires { now ≤ LAST_TICK }
        ensures { result ≡ block_in_time now block.now }
    {
        CriticalBlock {
            speed: block.speed,
            start: now + u64::from(block.from),
            end: now + u64::from(block.to),
        }
    }
}

// Writes blocks of the planner into the first elements of the list, and answers how many there are.
fn write(blocks: &[RelativeBlock], now: u64, list: &mut [CriticalBlock]) -> usize
    requires in_time { now ≤ LAST_TICK }
    requires room { length blocks.now ≤ length list.old }
    ensures list { list.new ≡ map (block_in_time now) blocks.now ++ drop (length blocks.now) list.old }
    ensures count { result ≡ length blocks.now }
{
    for (index, block) in blocks.iter().enumerate() {
        list[index] = CriticalBlock::in_time(block, now);
    }
    blocks.len()
}

impl Book {
    /// Writes the critical blocks into the first elements of the list, in the order of the rounds, and answers how many
    /// there are.
    ///
    /// # Refusals
    ///
    /// The list is as it was then.
    ///
    /// - [`BookFault::Short`]: the list has fewer than 64 elements.
    ///
    /// ```text
    /// // book_tests: examples::of_blocks
    /// // One block, of 3 units in the ticks 0 and 1: CriticalBlock { speed: (3, 2), start: 0, end: 2 }.
    /// let mut blocks = [CriticalBlock::default(); PLACES];
    /// let count = book.blocks(&mut blocks)?;
    /// ```
    pub fn blocks(&self, list: &mut [CriticalBlock]) -> Result<usize, BookFault>
        ensures answer { result ≡ (blocks_outcome self.entry.now list.old).answer }
        ensures list { list.new ≡ (blocks_outcome self.entry.now list.old).list }
        ensures critical { OnOk result (Blocked horizon (demands self.entry.now.now self.entry.now.jobs)) }
    {
        if list.len() < PLACES {
            return Err(BookFault::Short { needed: PLACES });
        }
        let mut demanded = [Demand::default(); PLACES];
        let demands = demands_of(&mut demanded, self.jobs.jobs(), self.tick);
        let blocks = critical_blocks(&demands);
        let count = write(blocks.list(), self.tick, list);
        Ok(count)
    }
}
