// Why the book refuses a call.
ghost use Rattle.std.specs.Prelude.{◌≡◌};
ghost use Rattle.book.specs.declared.fault.BookFault.TheVariants.{Read};
ghost use Rattle.book.specs.Refusals.{book_refusal};

use layout::ReadFault;
use refusal::{Layer, Refusal, Values};

/// The fields that the book checks, by the numbers that a refusal gives them.
#[derive(Clone, Copy, PartialEq, Eq, Debug)]
pub enum BookField {
    /// The ticket of an offered job: 1 to 65535.
    Ticket = 1,
    /// The arrival of an offered job, a tick: not before now.
    Arrival = 2,
    /// The deadline of an offered job, a tick: after the arrival, at most 256 ticks from now.
    Deadline = 3,
    /// The work of an offered job, in units: 1 or more.
    Work = 4,
    /// The tick that a book starts at: at most the last of all.
    Start = 5,
    /// The top of a book, in units in a tick: 1 to 255.
    Top = 6,
}

/// Why the book refuses a call.
#[derive(Clone, Copy, PartialEq, Eq, Debug)]
pub enum BookFault {
    /// The record that brings the call is not read.
    Read(ReadFault),
    /// The field has a value that it can't have.
    Field(BookField),
    /// A job with the ticket is open.
    TicketOpen { ticket: u16 },
    /// Every place is taken; there are so many, 64.
    Full { places: usize },
    /// The interval from the tick start to the tick end is overloaded: so many units of work lie inside, with those of
    /// the offered job, and that is more than the top times its ticks.
    Overload { start: u64, end: u64, work: u32 },
    /// No open job has the ticket.
    NotOpen { ticket: u16 },
    /// The list has fewer elements than the call needs.
    Short { needed: usize },
    /// Now is the last tick of all.
    LastTick { now: u64 },
    /// The image is that of no lawful book: its record with this number is the first that cannot stand where it does,
    /// or, where the number is 65, the records can stand but an interval is overloaded.
    Image { number: usize },
}

impl From<ReadFault> for BookFault {
    ghost from_gives = { λ fault above. above ≡ Read fault };

    fn from(fault: ReadFault) -> BookFault {
        BookFault::Read(fault)
    }
}

impl From<BookFault> for Refusal {
    ghost from_gives = { λ fault refusal. refusal ≡ book_refusal fault };

    fn from(fault: BookFault) -> Refusal {
        let (number, value) = match fault {
            BookFault::Read(fault) => return fault.into(),
            BookFault::Overload { start, end, work } => {
                return Refusal {
                    layer: Layer::Book,
                    number: 8,
                    values: Values::Three(start, end, u64::from(work)),
                };
            }
            BookFault::Field(field) => (5, field as u64),
            BookFault::TicketOpen { ticket } => (6, u64::from(ticket)),
            BookFault::Full { places } => (7, places as u64),
            BookFault::NotOpen { ticket } => (9, u64::from(ticket)),
            BookFault::Short { needed } => (10, needed as u64),
            BookFault::LastTick { now } => (11, now),
            BookFault::Image { number } => (13, number as u64),
        };
        Refusal::with_value(Layer::Book, number, value)
    }
}
