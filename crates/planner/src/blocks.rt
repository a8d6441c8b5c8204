// Critical blocks.
ghost use Rattle.std.specs.Prelude.{◌≡◌, ◌<◌, ◌≤◌, [], ◌∷◌, ◌++◌, length};
ghost use Rattle.schedule.specs.InForce.{horizon};
ghost use Rattle.schedule.specs.Theory.{Blocked};
ghost use Rattle.planner.specs.Blocks.{open_demands, critical_blocks};

use super::demands::{Demands, MOST_DEMANDS};
use super::rounds::Rounds;
use std::marker::Model;

/// A critical block seen from now: ticks with the same exact speed. Ticks of other blocks can lie between them, so
/// that its length is not always the distance of its ends.
#[derive(Clone, Copy, PartialEq, Eq, Debug, Default)]
pub struct RelativeBlock {
    /// The exact speed, in units a tick: the block's work in units, over its length in ticks.
    pub speed: (u32, u16),
    /// Its first tick, counted from now.
    pub from: u16,
    /// The tick after its last, counted from now.
    pub to: u16,
}

/// Critical blocks, at most 64, in the order of the rounds.
#[derive(Drop)]
pub struct RelativeBlocks {
    blocks: [RelativeBlock; MOST_DEMANDS],
    // How many there are: they come first, and what stands after them means nothing.
    count: usize,
}

impl Model for RelativeBlocks {
    ghost use Rattle.std.specs.Prelude.{◌≤◌, List, take};
    ghost use Rattle.planner.specs.declared.blocks.RelativeBlock.{RelativeBlock};
    ghost use Rattle.planner.specs.declared.demands.TheConstants.{MOST_DEMANDS};

    ghost Value = { List RelativeBlock };

    ghost view = { λ b. take b.count b.blocks };

    ghost invariant = { λ b. b.count ≤ MOST_DEMANDS };
}

impl RelativeBlocks {
    // No blocks.
    fn new() -> RelativeBlocks
        ensures { result ≡ [] }
    {
        RelativeBlocks {
            blocks: [RelativeBlock::default(); MOST_DEMANDS],
            count: 0,
        }
    }

    // One block more.
    fn push(&mut self, block: RelativeBlock)
        requires { length self.old < MOST_DEMANDS }
        ensures { self.new ≡ self.old ++ block ∷ [] }
    {
        self.blocks[self.count] = block;
        self.count += 1;
    }

    /// The blocks, in the order of the rounds: none has a greater speed than one before it. It never refuses.
    ///
    /// ```text
    /// // planner_tests: examples::of_critical_blocks
    /// critical_blocks(&demands).list().len();   // 2
    /// ```
    pub fn list(&self) -> &[RelativeBlock]
        ensures blocks { result.now ≡ self.now }
        ensures few { length self.now ≤ MOST_DEMANDS }
    {
        &self.blocks[..self.count]
    }
}

/// The critical blocks of the demands that have work left. It never refuses.
///
/// ```text
/// // planner_tests: examples::of_critical_blocks, for [0, 2) with 3 units and [0, 3) with 1
/// // RelativeBlock { speed: (3, 2), from: 0, to: 2 } and RelativeBlock { speed: (1, 1), from: 2, to: 3 }
/// critical_blocks(&demands);
/// ```
pub fn critical_blocks(demands: &Demands) -> RelativeBlocks
    ensures blocks { result ≡ critical_blocks demands.now }
    ensures critical { Blocked horizon (open_demands demands.now) }
{
    let mut rounds = Rounds::new(demands);
    let mut blocks = RelativeBlocks::new();
    while let Some(block) = rounds.next_block() {
        blocks.push(block);
    }
    blocks
}
