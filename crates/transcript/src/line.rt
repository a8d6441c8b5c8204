// One line of the transcript.
ghost use Rattle.std.specs.Prelude.{Some, take};
ghost use Rattle.transcript.specs.Lines.{plain_line};
ghost use Rattle.transcript.specs.Text.{plain_line_text, tick_text};

use super::fault::BenchFault;
use book::{Entry, PLACES};
use refusal::Refusal;
use std::fmt;

/// What a tick served.
#[derive(Clone, Copy)]
pub struct ServedTick {
    /// The tick.
    pub now: u64,
    /// Its setting, in units of work.
    pub setting: u8,
    /// The entries, in the first elements.
    pub list: [Entry; PLACES],
    /// How many there are.
    pub count: usize,
}

impl fmt::Display for ServedTick {
    ghost output = { λ t. Some (tick_text t.now t.setting (take t.count t.list)) };

    fn fmt<W: fmt::Write>(&self, f: &mut fmt::Formatter<W>) -> fmt::Result {
        write!(f, "T {} {}", self.now, self.setting)?;
        let count = self.count.min(PLACES);
        for entry in &self.list[..count] {
            write!(f, " {}:{}", entry.ticket, entry.units)?;
        }
        Ok(())
    }
}

/// What the bench says of one record: what it did, or why and where it is refused. `{}` writes the line without its
/// line feed.
#[derive(Clone, Copy)]
pub enum Line<'a> {
    /// An accepted offer, with the label that it shows.
    Offered { ticket: u16, label: &'a str },
    /// An accepted strike.
    Struck { ticket: u16 },
    /// A tick.
    Ticked(ServedTick),
    /// A record that is refused: its offset in the input, in bytes, and why.
    Refused { offset: usize, fault: BenchFault },
}

impl fmt::Display for Line<'_> {
    ghost output = { λ l. Some (plain_line_text (plain_line l)) };

    fn fmt<W: fmt::Write>(&self, f: &mut fmt::Formatter<W>) -> fmt::Result {
        match *self {
            Line::Offered { ticket, label } => write!(f, "O {ticket} ok {label}"),
            Line::Struck { ticket } => write!(f, "S {ticket} ok"),
            Line::Ticked(tick) => write!(f, "{tick}"),
            Line::Refused { offset, fault } => {
                let refusal = Refusal::from(fault);
                write!(f, "R {offset} {refusal}")
            }
        }
    }
}
