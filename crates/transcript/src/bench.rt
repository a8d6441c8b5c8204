// The bench works the records of a file one by one.
ghost use Rattle.std.specs.Prelude.{◌≡◌, IsAscii};
ghost use Rattle.transcript.specs.Lines.{plain_option, plain_answer};
ghost use Rattle.std.specs.Iterator.{at_most};
ghost use Rattle.transcript.specs.Run.{start_run, run_outcome, run_after_record, lines_left, GivesNext};

use super::fault::BenchFault;
use super::line::{Line, ServedTick};
use book::{Book, Entry, PLACES, Served};
use life::{Request, Response, handle};
use record::{Reader, shown};
use std::marker::Model;
use std::str::from_utf8;

// What a blank label shows.
const DEFAULT_LABEL: &[u8] = b"house";

// The top of the bench's book.
const TOP: u16 = 4;

// A label as text.
fn text(label: &[u8]) -> &str
    requires { IsAscii label.now }
    ensures { result.now ≡ label.now }
{
    from_utf8(label).unwrap()
}

/// Works the records of a file one by one with a book.
#[derive(Drop)]
pub struct Bench<'a> {
    reader: Reader<'a>,
    book: Book,
    // Whether a fault has ended the run. A flag, since a run that is over still has its input and its offset in what
    // is promised.
    over: bool,
}

impl<'a> Model for Bench<'a> {
    ghost use Rattle.std.specs.Prelude.{◌≤◌, length};
    ghost use Rattle.transcript.specs.Run.{Run};
    ghost use Rattle.transcript.specs.Bench.{run_of};

    ghost Value = { Run };

    ghost view = { run_of };

    ghost invariant = { λ b. b.reader.offset ≤ length b.reader.input };
}

impl<'a> Bench<'a> {
    /// A bench at the start of the input, with an empty book, now 0 and top 4.
    ///
    /// ```text
    /// // record_tests: examples::of_a_bench
    /// // A tick: no job is open, so the setting is 0.
    /// let mut bench = Bench::new(b"T\0\0\0\0\0\0\0\0\0\0\0\0\0\0\0\0\0      ");
    /// bench.next() // a line that prints `T 0 0`
    /// bench.next() // None
    /// ```
    pub fn new(input: &'a [u8]) -> Bench<'a>
        ensures { result ≡ start_run input.now }
    {
        let mut book = Book::new();
        book.open(0, TOP).unwrap();
        Bench {
            reader: Reader::new(input),
            book,
            over: false,
        }
    }

    // Reads the next record and works it, and says what it did.
    fn step(&mut self) -> Result<Option<Line<'a>>, BenchFault>
        ensures said { plain_answer result ≡ (run_outcome self.old).answer }
        ensures after { self.new ≡ run_after_record self.old }
    {
        let Some(record) = self.reader.read()? else {
            return Ok(None);
        };
        let now = self.book.now();
        let mut list = [Entry::default(); PLACES];
        let response = handle(&mut self.book, &Request::of(&record), &mut list)?;
        Ok(Some(match response {
            Response::Offered { ticket } => Line::Offered {
                ticket,
                label: text(shown(record.label(), DEFAULT_LABEL)),
            },
            Response::Struck { ticket } => Line::Struck { ticket },
            Response::Served(Served { setting, count }) => Line::Ticked(ServedTick {
                now,
                setting,
                list,
                count,
            }),
        }))
    }
}

/// The lines of the records. There is none after the last record, nor after a cut one.
impl<'a> Iterator for Bench<'a> {
    type Item = Line<'a>;

    ghost next_gives = { λ run line after. GivesNext run (plain_option line) after };

    ghost remaining = { λ run. at_most (lines_left run) };

    fn next(&mut self) -> Option<Line<'a>> {
        if self.over {
            return None;
        }
        let offset = self.reader.offset();
        // A match: the checker does not cover `unwrap_or_else` of a closure whose answer has a lifetime.
        match self.step() {
            Ok(line) => line,
            Err(fault) => {
                self.over = fault.ends_run();
                Some(Line::Refused { offset, fault })
            }
        }
    }
}
