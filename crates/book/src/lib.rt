//! The book: now, the top and the open jobs, with all its calls. They open it, offer a job and strike one, write the
//! settings in force, bill them, write the critical blocks, save an image of the book and load one, and serve a tick.
//!
//! ```text
//! // book_tests: examples::of_settings_and_a_tick
//! let mut book = Book::new();
//! book.open(0, 4)?;
//! book.offer(Job { ticket: 7, arrival: 0, deadline: 2, work: 3 })?;
//! // The list begins with 2 and 1, and 254 zeros.
//! book.settings(&mut settings)?;
//! // Served { setting: 2, count: 1 }, and the first entry is Entry { ticket: 7, units: 2 }.
//! let served = book.tick(&mut entries)?;
//! ```
//!
//! A refused call leaves the book and every list as they were, and nothing is taken from a heap of memory.
#![tactic(auto)]

mod bill;
mod blocks;
mod book;
mod demands;
mod fault;
mod image;
mod job;
mod loading;
mod overload;
mod settings;
mod table;
mod tick;

pub use bill::total_draw;
pub use blocks::CriticalBlock;
pub use book::Book;
pub use fault::{BookFault, BookField};
pub use image::IMAGE_LEN;
pub use layout::{Job, LAST_TICK, RECORD_LEN};
pub use planner::HORIZON;
pub use table::PLACES;
pub use tick::{Entry, Served};
