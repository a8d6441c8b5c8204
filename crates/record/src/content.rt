// What a record says.
ghost use Rattle.std.specs.Prelude.{◌≡◌};
ghost use Rattle.layout.specs.Content.{label_of};
ghost use Rattle.record.specs.Content.{content_of};

use layout::Job;

/// An offered job with its label.
#[derive(Clone, Copy, PartialEq, Debug)]
pub struct Offer<'a> {
    /// The job.
    pub job: Job,
    /// Its label, of bytes from 20 to 7E, hexadecimal. Of an offer that was read it is a part of the input, without
    /// the last spaces; of an offer to write it has all its six bytes.
    pub label: &'a [u8],
}

/// What one record says.
#[derive(Clone, Copy, PartialEq, Debug)]
pub enum Record<'a> {
    /// A job is offered.
    Offer(Offer<'a>),
    /// The open job with this ticket is to be closed.
    Strike { ticket: u16 },
    /// The tick at now is to be served.
    Tick,
}

impl<'a> Record<'a> {
    /// The label of the record: of an offer its own; a strike and a tick have a blank one, of no bytes.
    ///
    /// ```text
    /// // record_tests: examples::of_labels
    /// Record::Offer(Offer { job, label: b"fader" }).label()   // fader
    /// Record::Tick.label()                                    // no bytes
    /// ```
    pub fn label(&self) -> &'a [u8]
        ensures { result.now ≡ label_of (content_of self.now) }
    {
        match self {
            Record::Offer(offer) => offer.label,
            Record::Strike { .. } | Record::Tick => b"",
        }
    }
}
