// The lines of what the questions answer.
use super::answers::Answers;
use record::RECORD_LEN;
use std::fmt;

// The bytes of a record up to the last that is not 00, in hexadecimal, with a dot for a byte 00.
#[derive(Clone, Copy)]
struct Bytes<'a>(&'a [u8; RECORD_LEN]);

impl fmt::Display for Bytes<'_> {
    fn fmt<W: fmt::Write>(&self, f: &mut fmt::Formatter<W>) -> fmt::Result {
        let record = self.0;
        let zeros = record.iter().rev().take_while(|byte| **byte == 0).count();
        for byte in &record[..RECORD_LEN - zeros] {
            if *byte == 0 {
                write!(f, ".")?;
            } else {
                write!(f, "{byte:02x}")?;
            }
        }
        Ok(())
    }
}

// Answers, after those before them. `{}` writes a line for each question, or one for all where none has changed.
#[derive(Clone, Copy)]
pub(super) struct Lines<'a> {
    answers: &'a Answers,
    before: &'a Answers,
}

impl<'a> Lines<'a> {
    pub(super) fn new(answers: &'a Answers, before: &'a Answers) -> Lines<'a> {
        Lines { answers, before }
    }

    fn write_settings<W: fmt::Write>(&self, f: &mut fmt::Formatter<W>) -> fmt::Result {
        write!(f, "settings")?;
        for run in self.answers.settings.chunk_by(|one, next| one == next) {
            if let Some(setting) = run.first() {
                write!(f, " {setting}*{}", run.len())?;
            }
        }
        writeln!(f)
    }

    fn write_blocks<W: fmt::Write>(&self, f: &mut fmt::Formatter<W>) -> fmt::Result {
        write!(f, "blocks")?;
        for block in self.answers.blocks.iter().take(self.answers.count) {
            let (work, length) = block.speed;
            write!(f, " {work}/{length}@{}-{}", block.start, block.end)?;
        }
        writeln!(f)
    }

    fn write_bills<W: fmt::Write>(&self, f: &mut fmt::Formatter<W>) -> fmt::Result {
        write!(f, "bills")?;
        for bill in self.answers.bills {
            write!(f, " {bill}")?;
        }
        writeln!(f)
    }

    // The records of the image that stood otherwise in the image before.
    fn write_image<W: fmt::Write>(&self, f: &mut fmt::Formatter<W>) -> fmt::Result {
        write!(f, "image")?;
        let (records, _) = self.answers.image.as_chunks::<RECORD_LEN>();
        let (before, _) = self.before.image.as_chunks::<RECORD_LEN>();
        for (number, (record, old)) in records.iter().zip(before.iter()).enumerate() {
            if record != old {
                write!(f, " {number}:{}", Bytes(record))?;
            }
        }
        let word = if self.answers.is_saved_again {
            "same"
        } else {
            "other"
        };
        writeln!(f, " {word}")
    }
}

impl fmt::Display for Lines<'_> {
    fn fmt<W: fmt::Write>(&self, f: &mut fmt::Formatter<W>) -> fmt::Result {
        if self.answers == self.before {
            return writeln!(f, "as before");
        }
        self.write_settings(f)?;
        self.write_blocks(f)?;
        self.write_bills(f)?;
        self.write_image(f)
    }
}
