// The reader: a struct over the input with an offset.
ghost use Rattle.std.specs.Prelude.{◌≡◌, ◌+◌, ◌^◌, ◌<◌, ◌≤◌, length};
ghost use Rattle.layout.specs.BigEndian.{part};
ghost use Rattle.layout.specs.Reading.{content_in, parse_answer, some_content, read_answer, position_after};
ghost use Rattle.layout.specs.RoundTrip.{IsOnlyForm};
ghost use Rattle.record.specs.Content.{content_of, parse_answer_of, read_answer_of};

use super::content::{Offer, Record};
use super::label::trim;
use layout::{Job, Kind, LABEL, RECORD_LEN, ReadFault};
use std::marker::Model;

// What the bytes of an allowed record say.
fn record_in(kind: Kind, bytes: &[u8; RECORD_LEN]) -> Record<'_>
    ensures { content_of result ≡ content_in kind bytes.now }
{
    let job = Job::of_record(bytes);
    match kind {
        Kind::Offer => Record::Offer(Offer {
            job,
            label: trim(&bytes[LABEL..]),
        }),
        Kind::Strike => Record::Strike { ticket: job.ticket },
        Kind::Tick => Record::Tick,
    }
}

// The record of these bytes, which stand at the offset in the input.
fn parse(bytes: &[u8; RECORD_LEN], offset: usize) -> Result<Record<'_>, ReadFault>
    requires { offset + RECORD_LEN < 2 ^ 64 }
    ensures said { parse_answer_of result ≡ parse_answer offset bytes.now }
    ensures only { IsOnlyForm (some_content (parse_answer_of result)) bytes.now }
{
    let kind = Kind::try_from(bytes[0]).map_err(|_| ReadFault::UnknownKind { offset })?;
    if let Some(index) = kind.first_forbidden(bytes) {
        return Err(ReadFault::Forbidden {
            offset: offset + index,
        });
    }
    Ok(record_in(kind, bytes))
}

/// Reads the records of an input one after another.
///
/// An offer's label is a part of the input, so the records may outlive the reader.
///
/// ```text
/// // record_tests: examples::of_reading
/// // The 24 bytes of a strike of ticket 7, and three bytes more.
/// let mut reader = Reader::new(b"S\0\0\x07\0\0\0\0\0\0\0\0\0\0\0\0\0\0      T\0\0");
/// reader.read()     // Ok(Some(Record::Strike { ticket: 7 }))
/// reader.offset()   // 24
/// reader.read()     // Err(ReadFault::Cut { offset: 24 })
/// ```
#[derive(Drop)]
pub struct Reader<'a> {
    input: &'a [u8],
    offset: usize,
}

impl<'a> Model for Reader<'a> {
    ghost use Rattle.std.specs.Prelude.{◌≤◌, length};
    ghost use Rattle.layout.specs.Reading.{Position};

    ghost Value = { Position };

    ghost view = { λ r. record { input = r.input.now; offset = r.offset } };

    ghost invariant = { λ r. r.offset ≤ length r.input.now };
}

impl<'a> Reader<'a> {
    /// A reader at the start of the input, which may be empty.
    ///
    /// ```text
    /// // record_tests: examples::of_reading
    /// Reader::new(b"").read() // Ok(None)
    /// ```
    pub fn new(input: &'a [u8]) -> Reader<'a>
        ensures { result ≡ record { input = input.now; offset = 0 } }
    {
        Reader { input, offset: 0 }
    }

    /// The offset of the next record: how many bytes of the input stand before it.
    ///
    /// The example at [`Reader`] asks for it.
    pub fn offset(&self) -> usize
        ensures offset { result ≡ self.now.offset }
        ensures within { result ≤ length self.now.input }
    {
        self.offset
    }

    /// The next record, or `None` at the end of the input.
    ///
    /// A whole record that is refused is passed over, and the next call reads the one after it. At the end of the
    /// input, and at a cut record, the reader stays where it is.
    ///
    /// # Refusals
    ///
    /// - [`ReadFault::Cut`]: 1 to 23 bytes remain.
    /// - [`ReadFault::UnknownKind`]: byte 0 of the record is no kind.
    /// - [`ReadFault::Forbidden`]: a later byte is one that the layout of the kind forbids.
    ///
    /// The example at [`Reader`] reads a record and meets a cut one.
    pub fn read(&mut self) -> Result<Option<Record<'a>>, ReadFault>
        ensures said { read_answer_of result ≡ read_answer self.old.input self.old.offset }
        ensures only { IsOnlyForm (read_answer_of result) (part self.old.offset RECORD_LEN self.old.input) }
        ensures after { self.new ≡ position_after self.old }
        ensures within { self.new.offset ≤ length self.new.input }
    {
        let offset = self.offset;
        let left = &self.input[offset..];
        if left.is_empty() {
            return Ok(None);
        }
        let Some(bytes) = left.first_chunk::<RECORD_LEN>() else {
            return Err(ReadFault::Cut { offset });
        };
        self.offset += RECORD_LEN;
        // By `?`, and not by `map(Some)`, which copies every answer.
        let record = parse(bytes, offset)?;
        Ok(Some(record))
    }
}
