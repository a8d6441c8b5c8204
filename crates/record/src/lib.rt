//! The reader and the writer of 24-byte records.
//!
//! The crate `layout` has the layout of the bytes; what belongs to reading and writing stands here too.
#![tactic(auto)]

mod content;
mod label;
mod reading;
mod writing;

pub use content::{Offer, Record};
pub use label::shown;
pub use layout::{
    Job, Kind, LABEL_LEN, LAST_TICK, RECORD_LEN, ReadFault, UnknownKind, WriteFault, WrittenField,
};
pub use reading::Reader;
pub use writing::write;
