// The image of a book: a record of now and the top, then one for each place.
ghost use Rattle.std.specs.Prelude.{◌≡◌, map, slice_index_or, OnOk};
ghost use Rattle.layout.specs.Jobs.{IsSized};
ghost use Rattle.book.specs.Images.{clock_record, job_record, blank_record};
ghost use Rattle.book.specs.Loads.{IsSizedAt};

use super::book::Book;
use super::fault::BookFault;
use super::table::PLACES;
use layout::{Job, LABEL_LEN, RECORD_LEN};

// How many records an image has.
pub(super) const RECORDS: usize = 1 + PLACES;

/// How many bytes an image has.
pub const IMAGE_LEN: usize = RECORDS * RECORD_LEN;

// The first byte of the record of now and the top.
const CLOCK: u8 = 0x43;

// The first byte of the record of an open job.
const OPEN_JOB: u8 = 0x4a;

// The record of a place that no job takes.
pub(super) const BLANK: [u8; RECORD_LEN] = [0; RECORD_LEN];

// The record of now and the top: now stands where a job has its arrival, and the top where it has its work.
pub(super) fn clock_record(now: u64, top: u8) -> [u8; RECORD_LEN]
    ensures { result ≡ clock_record now top }
{
    let clock = Job {
        ticket: 0,
        arrival: now,
        deadline: 0,
        work: u16::from(top),
    };
    clock.to_record(CLOCK, &[0; LABEL_LEN])
}

// The record of the open job.
pub(super) fn job_record(job: &Job) -> [u8; RECORD_LEN]
    ensures bytes { result ≡ job_record job.now }
    ensures sized { IsSized job.now }
{
    job.to_record(OPEN_JOB, &[0; LABEL_LEN])
}

// The record for the index among the open jobs.
fn record_at(jobs: &[Job], index: usize) -> [u8; RECORD_LEN]
    ensures bytes { result ≡ slice_index_or (map job_record jobs.now) index blank_record }
    ensures sized { IsSizedAt index jobs.now }
{
    match jobs.get(index) {
        None => BLANK,
        Some(job) => job_record(job),
    }
}

impl Book {
    ghost use Rattle.book.specs.Images.{save_outcome};
    ghost use Rattle.book.specs.Loads.{LoadsBack};

    /// Writes the image of the book, 65 records of 24 bytes, into the first 1560 elements of the list.
    ///
    /// # Refusals
    ///
    /// The list is as it was then.
    ///
    /// - [`BookFault::Short`]: the list has fewer than 1560 elements.
    ///
    /// ```text
    /// // book_tests: examples::of_save
    /// let mut image = [0; IMAGE_LEN];
    /// book.save(&mut image)?;
    /// other.load(&image)?; // other is a book like this one now
    /// ```
    pub fn save(&self, list: &mut [u8]) -> Result<(), BookFault>
        ensures answer { result ≡ (save_outcome self.entry.now list.old).answer }
        ensures list { list.new ≡ (save_outcome self.entry.now list.old).list }
        ensures loads_back { OnOk result (LoadsBack list.new self.entry.now) }
    {
        if list.len() < IMAGE_LEN {
            return Err(BookFault::Short { needed: IMAGE_LEN });
        }
        list[..RECORD_LEN].copy_from_slice(&clock_record(self.tick, self.top));
        let jobs = self.jobs.jobs();
        for index in 0..PLACES {
            let start = (1 + index) * RECORD_LEN;
            list[start..start + RECORD_LEN].copy_from_slice(&record_at(jobs, index));
        }
        Ok(())
    }
}
