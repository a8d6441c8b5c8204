// The writer: one record into the caller's list.
ghost use Rattle.std.specs.Prelude.{◌≡◌, true, take, is_ok, OnOk};
ghost use Rattle.std.specs.Result.{result_map_both};
ghost use Rattle.layout.specs.Layout.{kind_byte};
ghost use Rattle.layout.specs.Jobs.{record_bytes, IsSized};
ghost use Rattle.layout.specs.RoundTrip.{IsSizedContent, trimmed_content, ReadsAs};
ghost use Rattle.layout.specs.Writing.{bare_job, encoding_of, encode_answer, write_check, offer_check};
ghost use Rattle.layout.specs.Writing.{write_answer, list_after};
ghost use Rattle.record.specs.Content.{content_of};

use super::content::{Offer, Record};
use super::label::is_label;
use layout::{Job, Kind, LABEL_LEN, LAST_TICK, RECORD_LEN, WriteFault, WrittenField};

// The label of a strike or a tick.
const BLANK_LABEL: [u8; LABEL_LEN] = [b' '; LABEL_LEN];

// Whether the fields of an offer fit their bytes.
fn check_offer(offer: &Offer) -> Result<(), WriteFault>
    ensures fits { result ≡ offer_check offer.now.job offer.now.label.now }
    ensures sized { IsSized offer.now.job }
{
    let Offer { job, label } = *offer;
    if job.arrival > LAST_TICK {
        return Err(WriteFault::Field(WrittenField::Arrival));
    }
    if job.deadline > LAST_TICK {
        return Err(WriteFault::Field(WrittenField::Deadline));
    }
    if !is_label(label) {
        return Err(WriteFault::Field(WrittenField::Label));
    }
    Ok(())
}

// A strike has the ticket in place of a job, and a tick zeros alone.
fn bare_job(ticket: u16) -> Job
    ensures { result ≡ bare_job ticket }
{
    Job {
        ticket,
        ..Job::default()
    }
}

// What the bytes of the record are made of, where its fields fit them. Not the bytes: in a `Result` they would be
// copied by pieces.
fn parts<'a>(said: &Record<'a>) -> Result<(Kind, Job, &'a [u8; LABEL_LEN]), WriteFault>
    ensures said { result_map_both (λ p. record_bytes (kind_byte p.0) p.1 p.2.now) (λ fault. fault) result
        ≡ encode_answer (write_check (content_of said.now)) (encoding_of (content_of said.now)) }
    ensures sized { OnOk result (IsSizedContent (content_of said.now)) }
{
    Ok(match *said {
        Record::Offer(offer) => {
            check_offer(&offer)?;
            (Kind::Offer, offer.job, offer.label.first_chunk().unwrap())
        }
        Record::Strike { ticket } => (Kind::Strike, bare_job(ticket), &BLANK_LABEL),
        Record::Tick => (Kind::Tick, bare_job(0), &BLANK_LABEL),
    })
}

/// Writes the record into the first 24 bytes of the list, and leaves the rest of it.
///
/// They read back as the record, but for the last spaces of its label.
///
/// ```text
/// // record_tests: examples::of_writing
/// let mut bytes = [0; RECORD_LEN];
/// write(&Record::Strike { ticket: 7 }, &mut bytes)?;
/// Reader::new(&bytes).read()   // Ok(Some(Record::Strike { ticket: 7 }))
/// ```
///
/// # Refusals
///
/// Checked in this order; a refused call leaves the list as it was.
///
/// - [`WriteFault::Field(WrittenField::Arrival)`]: the arrival of an offer is after `LAST_TICK`.
/// - [`WriteFault::Field(WrittenField::Deadline)`]: its deadline is.
/// - [`WriteFault::Field(WrittenField::Label)`]: its label is not six bytes from 20 to 7E, hexadecimal.
/// - [`WriteFault::Short`]: the list has fewer than 24 bytes.
pub fn write(said: &Record, out: &mut [u8]) -> Result<(), WriteFault>
    ensures said { result ≡ write_answer (content_of said.now) out.old }
    ensures written { out.new ≡ list_after (content_of said.now) out.old }
    ensures back { is_ok result ≡ true → ReadsAs (take RECORD_LEN out.new) (trimmed_content (content_of said.now)) }
{
    let (kind, job, label) = parts(said)?;
    let bytes = job.to_record(kind.into(), label);
    if out.len() < RECORD_LEN {
        return Err(WriteFault::Short { needed: RECORD_LEN });
    }
    out[..RECORD_LEN].copy_from_slice(&bytes);
    Ok(())
}
