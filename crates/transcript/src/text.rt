// The whole transcript.
ghost use Rattle.std.specs.Prelude.{◌≡◌, Some};
ghost use Rattle.transcript.specs.Text.{transcript};

use super::bench::Bench;
use std::fmt;

/// A file of records as `{}` prints it: a line for each record.
// No `Model`: it is `Copy`, and a view could not give the reference back.
#[derive(Clone, Copy)]
pub struct Transcript<'a> {
    input: &'a [u8],
}

impl<'a> Transcript<'a> {
    /// The transcript of these records.
    ///
    /// ```text
    /// // record_tests: examples::of_a_transcript
    /// // A strike of ticket 7, and two bytes more.
    /// let text = Transcript::of(b"S\0\0\x07\0\0\0\0\0\0\0\0\0\0\0\0\0\0      T\0");
    /// println!("{text}"); // R 0 9 7, then R 24 1 24
    /// ```
    pub fn of(input: &'a [u8]) -> Transcript<'a>
        ensures { result.input.now ≡ input.now }
    {
        Transcript { input }
    }
}

impl fmt::Display for Transcript<'_> {
    ghost output = { λ t. Some (transcript t.input.now) };

    fn fmt<W: fmt::Write>(&self, f: &mut fmt::Formatter<W>) -> fmt::Result {
        for line in Bench::new(self.input) {
            writeln!(f, "{line}")?;
        }
        Ok(())
    }
}
