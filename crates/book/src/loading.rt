// The book that an image says, and which record of it is wrong.
ghost use Rattle.std.specs.Prelude.{◌≡◌, ◌≤◌, Some, None, [], length, if◌then◌else◌, map, take_while};
ghost use Rattle.std.specs.Option.{option_map};
ghost use Rattle.layout.specs.Jobs.{job_in};
ghost use Rattle.book.specs.Images.{top_in, now_in, can_be_open, is_job_record, is_clock, is_next_job};
ghost use Rattle.book.specs.Images.{first_wrong_later, load_fault, book_in};
ghost use Rattle.book.specs.Outcomes.{ok_unless};
ghost use Rattle.book.specs.Reading.{leading_jobs};
ghost use Rattle.book.specs.declared.table.TheConstants.{PLACES};

use super::book::Book;
use super::fault::BookFault;
use super::image::{BLANK, IMAGE_LEN, RECORDS, clock_record, job_record};
use super::job::HORIZON_TICKS;
use super::overload::overload_fault;
use super::table::Table;
use layout::{Job, LAST_TICK, RECORD_LEN};

// Now and the top, where the record is that of some.
fn read_clock(bytes: &[u8; RECORD_LEN]) -> Option<(u64, u8)>
    ensures { result ≡ (if is_clock bytes.now then Some (now_in bytes.now, top_in bytes.now) else None) }
{
    let clock = Job::of_record(bytes);
    let now = clock.arrival;
    let top = u8::try_from(clock.work).ok()?;
    if top == 0 || *bytes != clock_record(now, top) {
        return None;
    }
    Some((now, top))
}

// Whether the job can be open at now.
fn can_be_open(job: &Job, now: u64) -> bool
    requires { now ≤ LAST_TICK }
    ensures { result ≡ can_be_open now job.now }
{
    job.ticket > 0
        && job.work > 0
        && now < job.deadline
        && job.deadline <= now + HORIZON_TICKS
        && job.deadline <= LAST_TICK
        && job.arrival < job.deadline
        && job.deadline <= job.arrival + HORIZON_TICKS
}

// The job that the record says, where it can stand after those of the jobs.
fn next_job(jobs: &Table, now: u64, bytes: &[u8; RECORD_LEN]) -> Option<Job>
    requires { now ≤ LAST_TICK }
    ensures { result ≡ (if is_next_job now jobs.now bytes.now then Some (job_in bytes.now) else None) }
{
    let job = Job::of_record(bytes);
    if *bytes != job_record(&job) || !can_be_open(&job, now) {
        return None;
    }
    if !jobs.all_before(&job) || jobs.has_ticket(job.ticket) {
        return None;
    }
    Some(job)
}

// The jobs of the first records, as long as each is a next job.
fn leading_jobs(records: &[[u8; RECORD_LEN]], now: u64) -> Table
    requires in_time { now ≤ LAST_TICK }
    requires few { length records.now ≤ PLACES }
    ensures { result ≡ leading_jobs now [] records.now }
{
    let mut jobs = Table::new();
    for bytes in records {
        let Some(job) = next_job(&jobs, now, bytes) else {
            return jobs;
        };
        jobs.push(job);
    }
    jobs
}

// The jobs of the records after the first.
fn read_jobs(records: &[[u8; RECORD_LEN]], now: u64) -> Result<Table, BookFault>
    requires in_time { now ≤ LAST_TICK }
    requires few { length records.now ≤ PLACES }
    ensures { result ≡ ok_unless (option_map BookFault.Image (first_wrong_later now [] 1 records.now))
        (map job_in (take_while is_job_record records.now)) }
{
    let jobs = leading_jobs(records, now);
    let count = jobs.jobs().len();
    match records[count..].iter().position(|bytes| *bytes != BLANK) {
        None => Ok(jobs),
        Some(index) => Err(BookFault::Image {
            number: 1 + count + index,
        }),
    }
}

// The book that the image says.
fn read_image(list: &[u8]) -> Result<Book, BookFault>
    ensures { result ≡ ok_unless (load_fault list.now) (book_in list.now) }
{
    if list.len() < IMAGE_LEN {
        return Err(BookFault::Short { needed: IMAGE_LEN });
    }
    let (records, _) = list.as_chunks::<RECORD_LEN>();
    let Some((now, top)) = read_clock(&records[0]) else {
        return Err(BookFault::Image { number: 0 });
    };
    let jobs = read_jobs(&records[1..RECORDS], now)?;
    if overload_fault(jobs.jobs(), now, top).is_some() {
        return Err(BookFault::Image { number: RECORDS });
    }
    Ok(Book {
        tick: now,
        top,
        jobs,
    })
}

impl Book {
    ghost use Rattle.book.specs.Images.{load_outcome};
    ghost use Rattle.book.specs.Loads.{OnlyImages};

    /// Makes the book the one that the image in the first 1560 elements of the list says.
    ///
    /// # Refusals
    ///
    /// The book is as it was then.
    ///
    /// - [`BookFault::Short`]: the list has fewer than 1560 elements.
    /// - [`BookFault::Image`]: by its number from 0, the first record that cannot stand where it does: no book,
    ///   overload allowed, saves an image that begins with the records up to and with this one. Or 65: every record
    ///   can stand, but an interval is overloaded.
    ///
    /// ```text
    /// // book_tests: examples::of_load
    /// let image = [0; IMAGE_LEN];
    /// // Record 0 is that of no now and top: Err(BookFault::Image { number: 0 }).
    /// let answer = book.load(&image);
    /// ```
    pub fn load(&mut self, list: &[u8]) -> Result<(), BookFault>
        ensures answer { result ≡ (load_outcome self.old list.now).answer }
        ensures after { self.new ≡ (load_outcome self.old list.now).book }
        ensures only_images { IMAGE_LEN ≤ length list.now → OnlyImages list.now result self.new }
    {
        *self = read_image(list)?;
        Ok(())
    }
}
