//! The planner: it makes the settings in force for demands, and their critical blocks.
//!
//! A demand is an open job seen from now: its window in ticks from now, and the units of its work that are left.
//!
//! `settings` allocates the units of the demands to ticks, one by one, in order of deadline: each to the tick of its
//! hull that has the fewest units so far. The hull of a window is where room can be made for one unit more of it: it
//! goes from the last tick up to the window's start that has no slack to the window's end. That ends in the settings
//! in force.
//!
//! ```text
//! // planner_tests: examples::of_settings
//! let list = [
//!     Demand { from: 0, to: 2, units: 3 },
//!     Demand { from: 0, to: 3, units: 1 },
//! ];
//! let demands = Demands::new(&list)?;
//! // 2, 1 and 1, and 0 for the other 253 ticks
//! let settings = settings(&demands);
//! ```
//!
//! `queue::TickQueue` holds the ticks of a hull. A unit costs one replacement of the least tick there, and a pass over
//! the ticks between the one it is allocated to and the start of its window. Nothing is taken from a heap of memory.
//!
//! `critical_blocks` goes in rounds. Compressed time counts the free ticks only, and at first all ticks are free. Each
//! round searches for the pair of compressed times with the greatest work over length, removes the demands inside, and
//! takes the free ticks between: these are the next block.
//!
//! ```text
//! // planner_tests: examples::of_critical_blocks
//! // speed (3, 2) at 0..2, then speed (1, 1) at 2..3
//! let blocks = critical_blocks(&demands);
//! ```
//!
//! No top is known here, and the settings are as great as the demands need. Where no interval is overloaded, they stay
//! within the top.
#![tactic(auto)]

mod allocation;
mod blocks;
mod demands;
mod hull;
mod pair;
mod plan;
mod rounds;
mod search;
mod ticks;

pub use allocation::settings;
pub use blocks::{RelativeBlock, RelativeBlocks, critical_blocks};
pub use demands::{Demand, Demands, HORIZON, MOST_DEMANDS};
