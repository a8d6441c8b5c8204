//! One priority queue for every kind of element that has a total order, in slots that the caller lends.
//!
//! `Rank` is the order, and `Queue` the queue as a binary heap, with the order of the heap as an invariant of its
//! type. The governor has it for two kinds of elements:
//!
//! - `ReadyQueue`, of ready jobs, by deadline, then ticket;
//! - `TickQueue`, of planned ticks, by the units allocated to them so far, then tick.
//!
//! `try_put` gives an element back that finds no free slot. `put` of these two refuses it by number.
//!
//! ```text
//! // queue_tests: examples::of_a_plan
//! let mut slots = [PlannedTick::default(); 256];
//! let mut ticks = TickQueue::new(&mut slots);
//! ticks.put(PlannedTick { units: 2, tick: 0 })?;
//! ticks.put(PlannedTick { units: 1, tick: 7 })?;
//! ticks.put(PlannedTick { units: 1, tick: 3 })?;
//! // Some(PlannedTick { units: 1, tick: 3 })
//! let next = ticks.take();
//! ```
//!
//! `least` answers the next element and leaves it held, and `replace_least` takes it and puts another one in one way
//! down the tree.
//!
//! A put, a take and a replacement look at no more elements than twice the levels of the tree, and nothing is taken
//! from a heap of memory.
#![tactic(auto)]

mod fault;
mod heap;
mod order;
mod ready;
mod ticks;

pub use fault::QueueFault;
pub use heap::Queue;
pub use order::Rank;
pub use ready::{ReadyJob, ReadyQueue};
pub use ticks::{PlannedTick, TickQueue};
