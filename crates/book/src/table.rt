// The table of the open jobs.
ghost use Rattle.std.specs.Prelude.{◌≡◌, ◌<◌, ◌≤◌, [], ◌∷◌, ◌++◌, length, map, position, nat_le, All};
ghost use Rattle.std.specs.List.{filter, list_all, remove};
ghost use Rattle.book.specs.Jobs.{is_before, has_ticket, is_ticket_open, jobs_with};
ghost use Rattle.book.specs.Lists.{list_with};
ghost use Rattle.book.specs.Book.{IsOpenAt, IsInOrder};
ghost use Rattle.book.specs.Ticks.{grants, worked_job, has_work, entries_of};

use super::job::is_before;
use super::tick::{Entry, serve};
use layout::Job;
use std::fmt;
use std::marker::Model;

/// The places of a book: how many jobs can be open, and so how many entries a tick and how many blocks a question can
/// write.
pub const PLACES: usize = planner::MOST_DEMANDS;

// The open jobs in the order of serving.
// No comparison is derived: what stands in the other places plays no part.
#[derive(Drop)]
pub(super) struct Table {
    places: [Job; PLACES],
    // How many jobs are open: they stand in the first elements, and what the others hold means nothing.
    count: usize,
}

impl Model for Table {
    ghost use Rattle.std.specs.Prelude.{◌≤◌, List, take};
    ghost use Rattle.layout.specs.declared.job.Job.{Job};
    ghost use Rattle.book.specs.declared.table.TheConstants.{PLACES};

    ghost Value = { List Job };

    ghost view = { λ t. take t.count t.places };

    ghost invariant = { λ t. t.count ≤ PLACES };
}

impl Table {
    // A table with no job.
    pub(super) fn new() -> Table
        ensures { result ≡ [] }
    {
        Table {
            places: [Job::default(); PLACES],
            count: 0,
        }
    }

    // The jobs, in the order of serving.
    pub(super) fn jobs(&self) -> &[Job]
        ensures jobs { result.now ≡ self.now }
        ensures few { length self.now ≤ PLACES }
    {
        &self.places[..self.count]
    }

    // Whether every place is taken.
    pub(super) fn is_full(&self) -> bool
        ensures { result ≡ nat_le PLACES (length self.now) }
    {
        self.jobs().len() == PLACES
    }

    // Whether a job has the ticket.
    pub(super) fn has_ticket(&self, ticket: u16) -> bool
        ensures { result ≡ is_ticket_open ticket self.now }
    {
        self.jobs().iter().any(|job| job.ticket == ticket)
    }

    // Whether all jobs are served before the other one.
    pub(super) fn all_before(&self, other: &Job) -> bool
        ensures { result ≡ list_all (λ job. is_before job other.now) self.now }
    {
        self.jobs().iter().all(|job| is_before(job, other))
    }

    // The index of the job with the ticket.
    pub(super) fn index_of(&self, ticket: u16) -> Option<usize>
        ensures { result ≡ position (has_ticket ticket) self.now }
    {
        self.jobs().iter().position(|job| job.ticket == ticket)
    }

    // The table with one more job, right before the first that is served after it.
    pub(super) fn with_job(&self, job: Job) -> Table
        requires { length self.now < PLACES }
        ensures { result ≡ jobs_with job self.now }
    {
        let index = self
            .jobs()
            .iter()
            .position(|other| is_before(&job, other))
            .unwrap_or(self.count);
        let mut places = self.places;
        places.copy_within(index..self.count, index + 1);
        places[index] = job;
        Table {
            places,
            count: self.count + 1,
        }
    }

    // Adds the job after all others.
    pub(super) fn push(&mut self, job: Job)
        requires { length self.old < PLACES }
        ensures { self.new ≡ self.old ++ (job ∷ []) }
    {
        self.places[self.count] = job;
        self.count += 1;
    }

    // Removes the job at the index.
    pub(super) fn remove(&mut self, index: usize)
        requires { index < length self.old }
        ensures { self.new ≡ remove self.old index }
    {
        self.places.copy_within(index + 1..self.count, index);
        self.count -= 1;
    }

    // Serves the jobs at now, with an entry for each that got units, and answers how many there are.
    pub(super) fn serve(&mut self, now: u64, setting: u8, list: &mut [Entry]) -> usize
        requires room { PLACES ≤ length list.old }
        requires in_order { IsInOrder self.old }
        requires open { All (IsOpenAt now) self.old }
        ensures jobs { self.new ≡ map worked_job (grants now setting self.old) }
        ensures list { list.new ≡ list_with (entries_of (grants now setting self.old)) list.old }
        ensures count { result ≡ length (entries_of (grants now setting self.old)) }
    {
        serve(&mut self.places[..self.count], now, setting, list)
    }

    // Removes the jobs that have no work left. By index, since the others move within the table: its places are fixed,
    // and there is no heap.
    pub(super) fn close_done(&mut self)
        ensures { self.new ≡ filter has_work self.old }
    {
        let mut count = 0;
        for index in 0..self.count {
            let job = self.places[index];
            if job.work > 0 {
                self.places[count] = job;
                count += 1;
            }
        }
        self.count = count;
    }
}

// The open jobs, and not what stands in the other places.
impl fmt::Debug for Table {
    fn fmt<W: fmt::Write>(&self, f: &mut fmt::Formatter<W>) -> fmt::Result {
        f.debug_list().entries(self.jobs()).finish()
    }
}
