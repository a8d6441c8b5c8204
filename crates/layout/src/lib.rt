//! A job, and the 24-byte records of a console's file: their kinds, how their bytes are laid out, and why one is
//! refused.
//!
//! Numbers have the high byte first.
//!
//! | bytes | field |
//! |---|---|
//! | 0 | kind: 4F offer, 53 strike, 54 tick, hexadecimal |
//! | 1 | zero |
//! | 2 to 3 | ticket |
//! | 4 to 9 | arrival |
//! | 10 to 15 | deadline |
//! | 16 to 17 | work |
//! | 18 to 23 | label, bytes 20 to 7E |
//!
//! A strike has no number but its ticket and a tick has none: the bytes of the others are zero, and those of the
//! label are spaces.
//!
//! The definitions of reading and writing stand here too, in specs/, with the laws that tie them, in proofs/;
//! the crate `record` has the reader and the writer, and hands on what belongs to them.
#![tactic(auto)]

mod fault;
mod job;
mod kind;

pub use fault::{ReadFault, WriteFault, WrittenField};
pub use job::{Job, LAST_TICK};
pub use kind::{
    ARRIVAL, DEADLINE, Kind, LABEL, LABEL_LEN, RECORD_LEN, TICKET, UnknownKind, WORK, is_printable,
};
