// The book and its calls.
ghost use Rattle.std.specs.Prelude.{◌≡◌};

use super::fault::{BookFault, BookField};
use super::job::check_fields;
use super::overload::overload_fault;
use super::table::{PLACES, Table};
use layout::{Job, LAST_TICK};
use std::marker::Model;

/// The book: now, the top and the open jobs.
///
/// Every book is lawful: the tickets of the open jobs differ, each has work left and a deadline in sight, and no
/// interval is overloaded.
#[derive(Debug, Drop)]
pub struct Book {
    // Now. A field of that name would hide what a clause calls `self.now`.
    pub(super) tick: u64,
    pub(super) top: u8,
    pub(super) jobs: Table,
}

impl Model for Book {
    ghost use Rattle.book.specs.Book.{View, IsLawful};

    ghost Value = { View };

    ghost view = { λ b. record { now = b.tick; top = b.top; jobs = b.jobs } };

    ghost invariant = { λ b. IsLawful (record { now = b.tick; top = b.top; jobs = b.jobs }) };
}

impl Book {
    ghost use Rattle.book.specs.Book.{IsLawful, empty_book};
    ghost use Rattle.book.specs.Outcomes.{ok_unless};
    ghost use Rattle.book.specs.Calls.{early_fault, open_outcome, strike_outcome, offer_outcome};
    ghost use Rattle.book.specs.Offers.{OnlyOverload};

    /// An empty book, with now 0 and top 1.
    ///
    /// ```text
    /// // book_tests: examples::of_what_a_book_has
    /// let mut book = Book::new();
    /// book.open(0, 4)?; // now 0, top 4
    /// ```
    pub fn new() -> Book
        ensures { result ≡ empty_book 0 1 }
    {
        Book {
            tick: 0,
            top: 1,
            jobs: Table::new(),
        }
    }

    /// Now: the tick that comes next, 0 in a new book.
    ///
    /// ```text
    /// // book_tests: examples::of_what_a_book_has
    /// book.open(5, 4)?;
    /// book.now() // 5
    /// ```
    pub fn now(&self) -> u64
        ensures { result ≡ self.now.now }
    {
        self.tick
    }

    /// The top: the greatest setting, in units of work in a tick.
    ///
    /// ```text
    /// // book_tests: examples::of_what_a_book_has
    /// book.open(5, 4)?;
    /// book.top() // 4
    /// ```
    pub fn top(&self) -> u8
        ensures { result ≡ self.now.top }
    {
        self.top
    }

    /// The open jobs, with their work left, by deadline, then ticket.
    ///
    /// ```text
    /// // book_tests: examples::of_what_a_book_has
    /// book.open(5, 4)?;
    /// book.offer(Job { ticket: 7, arrival: 5, deadline: 7, work: 3 })?;
    /// book.offer(Job { ticket: 9, arrival: 5, deadline: 6, work: 2 })?;
    /// book.jobs() // the job with ticket 9, then the one with ticket 7
    /// ```
    pub fn jobs(&self) -> &[Job]
        ensures jobs { result.now ≡ self.now.jobs }
        ensures lawful { IsLawful self.now }
    {
        self.jobs.jobs()
    }

    /// Sets now to the start and the top, in units of work in a tick, and empties the book.
    ///
    /// # Refusals
    ///
    /// The book is as it was then.
    ///
    /// - [`BookFault::Field`]: of the start, where it is after the last tick, 2^48 - 1; then of the top, where it is
    ///   not 1 to 255.
    ///
    /// ```text
    /// // book_tests: examples::of_open
    /// book.open(0, 4)?;
    /// let answer = book.open(0, 256); // Err(BookFault::Field(BookField::Top))
    /// ```
    pub fn open(&mut self, start: u64, top: u16) -> Result<(), BookFault>
        ensures answer { result ≡ (open_outcome self.old start top).answer }
        ensures after { self.new ≡ (open_outcome self.old start top).book }
    {
        if start > LAST_TICK {
            return Err(BookFault::Field(BookField::Start));
        }
        if top == 0 || top > 255 {
            return Err(BookFault::Field(BookField::Top));
        }
        self.tick = start;
        self.top = top as u8;
        self.jobs = Table::new();
        Ok(())
    }

    /// Closes the open job with the ticket.
    ///
    /// # Refusals
    ///
    /// The book is as it was then.
    ///
    /// - [`BookFault::NotOpen`]: no open job has the ticket.
    ///
    /// ```text
    /// // book_tests: examples::of_strike
    /// book.strike(7)?;
    /// let answer = book.strike(7); // Err(BookFault::NotOpen { ticket: 7 })
    /// ```
    #[tactic(auto, using(crate::proofs::Striking::struck_missed, crate::proofs::Striking::struck_found))]
    pub fn strike(&mut self, ticket: u16) -> Result<(), BookFault>
        ensures answer { result ≡ (strike_outcome self.old ticket).answer }
        ensures after { self.new ≡ (strike_outcome self.old ticket).book }
    {
        let Some(index) = self.jobs.index_of(ticket) else {
            return Err(BookFault::NotOpen { ticket });
        };
        self.jobs.remove(index);
        Ok(())
    }

    // Whether an offered job passes the checks that come before overload.
    fn check(&self, job: &Job) -> Result<(), BookFault>
        ensures { result ≡ ok_unless (early_fault self.now job.now) tt }
    {
        check_fields(job, self.tick).map_err(BookFault::Field)?;
        if self.jobs.has_ticket(job.ticket) {
            return Err(BookFault::TicketOpen { ticket: job.ticket });
        }
        if self.jobs.is_full() {
            return Err(BookFault::Full { places: PLACES });
        }
        Ok(())
    }

    /// Adds the job to the open ones, with its work as its work left.
    ///
    /// # Refusals
    ///
    /// In this order; the book is as it was then.
    ///
    /// - [`BookFault::Field`]: of the ticket, where it is 0; of the arrival, where it is before now; of the deadline,
    ///   where it is not after the arrival, more than 256 ticks from now or after the last tick; of the work, where it
    ///   is 0.
    /// - [`BookFault::TicketOpen`]: an open job has the ticket.
    /// - [`BookFault::Full`]: 64 jobs are open.
    /// - [`BookFault::Overload`]: with the job an interval is overloaded, so that no settings up to the top could do
    ///   all work.
    ///
    /// ```text
    /// // book_tests: examples::of_offer
    /// book.offer(Job { ticket: 7, arrival: 0, deadline: 2, work: 3 })?;
    /// // With a top of 4: Err(BookFault::Overload { start: 0, end: 2, work: 9 })
    /// let answer = book.offer(Job { ticket: 9, arrival: 0, deadline: 2, work: 6 });
    /// ```
    pub fn offer(&mut self, job: Job) -> Result<(), BookFault>
        ensures answer { result ≡ (offer_outcome self.old job).answer }
        ensures after { self.new ≡ (offer_outcome self.old job).book }
        ensures only_overload { OnlyOverload self.old job result }
    {
        self.check(&job)?;
        let jobs = self.jobs.with_job(job);
        if let Some(fault) = overload_fault(jobs.jobs(), self.tick, self.top) {
            return Err(fault);
        }
        self.jobs = jobs;
        Ok(())
    }
}

/// An empty book, as [`Book::new`] makes it.
impl Default for Book {
    ghost use Rattle.book.specs.Book.{empty_book};

    ghost is_default = { λ b. b ≡ empty_book 0 1 };

    fn default() -> Book {
        Book::new()
    }
}
