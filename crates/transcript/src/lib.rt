//! What `bench` prints of a file of records, which it works with a book: a line for each.
#![tactic(auto)]

mod bench;
mod fault;
mod line;
mod text;

pub use bench::Bench;
pub use fault::BenchFault;
pub use line::{Line, ServedTick};
pub use text::Transcript;
