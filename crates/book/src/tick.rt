// One tick: the ready jobs are served by earliest deadline, then least ticket.
ghost use Rattle.std.specs.Prelude.{◌≡◌, ◌≤◌, length, map, All};
ghost use Rattle.std.specs.List.Sorted.{IsPermutation};
ghost use Rattle.queue.specs.Slots.{slots_of, elements_of};
ghost use Rattle.book.specs.Book.{IsOpenAt, IsInOrder};
ghost use Rattle.book.specs.Lists.{list_with};
ghost use Rattle.book.specs.Ready.{ready_jobs};
ghost use Rattle.book.specs.Ticks.{grants, worked_job, entries_of, tick_outcome, GivesSetting};

use super::book::Book;
use super::fault::BookFault;
use super::table::PLACES;
use layout::{Job, LAST_TICK};
use queue::{ReadyJob, ReadyQueue};

/// What a tick gave to one job.
#[derive(Clone, Copy, PartialEq, Eq, Debug, Default)]
pub struct Entry {
    /// The ticket of the job.
    pub ticket: u16,
    /// The units of work that the tick did of it.
    pub units: u16,
}

/// What a tick answers.
#[derive(Clone, Copy, PartialEq, Eq, Debug)]
pub struct Served {
    /// The setting of the tick, in units of work.
    pub setting: u8,
    /// How many entries it wrote: one for each job that got units.
    pub count: usize,
}

// The jobs whose windows have begun, in a queue in these slots.
fn ready_jobs<'a>(slots: &'a mut [ReadyJob; PLACES], jobs: &[Job], now: u64) -> ReadyQueue<'a>
    requires { length jobs.now ≤ PLACES }
    ensures { IsPermutation (ready_jobs now 0 jobs.now) (elements_of (slots_of result)) }
{
    let mut ready = ReadyQueue::new(slots);
    for (index, job) in jobs.iter().enumerate() {
        if job.arrival <= now {
            let ready_job = ReadyJob {
                deadline: job.deadline,
                ticket: job.ticket,
                index: index as u8,
            };
            ready.put(ready_job).unwrap();
        }
    }
    ready
}

// Serves the ready jobs until the setting is used up, with an entry for each that is served, and answers how many
// there are.
pub(super) fn serve(jobs: &mut [Job], now: u64, setting: u8, list: &mut [Entry]) -> usize
    requires few { length jobs.old ≤ PLACES }
    requires room { PLACES ≤ length list.old }
    requires in_order { IsInOrder jobs.old }
    requires open { All (IsOpenAt now) jobs.old }
    ensures jobs { jobs.new ≡ map worked_job (grants now setting jobs.old) }
    ensures list { list.new ≡ list_with (entries_of (grants now setting jobs.old)) list.old }
    ensures count { result ≡ length (entries_of (grants now setting jobs.old)) }
{
    let mut slots = [ReadyJob::default(); PLACES];
    let mut ready = ready_jobs(&mut slots, jobs, now);
    let mut left = u16::from(setting);
    let mut count = 0;
    while left > 0 {
        let Some(next) = ready.take() else {
            break;
        };
        let job = &mut jobs[usize::from(next.index)];
        let units = job.serve(left);
        let ticket = job.ticket;
        list[count] = Entry { ticket, units };
        left -= units;
        count += 1;
    }
    count
}

impl Book {
    /// Serves one tick: the first setting in force goes to the open jobs whose windows have begun, by earliest
    /// deadline, then least ticket. Jobs with no work left close, and now rises by 1. Writes an entry into the list
    /// for each job that got units, in the order of serving; their units add up to the setting.
    ///
    /// # Refusals
    ///
    /// The book and the list are as they were then.
    ///
    /// - [`BookFault::Short`]: the list has fewer than 64 elements.
    /// - [`BookFault::LastTick`]: now is the last tick of all, 2^48 - 1.
    ///
    /// ```text
    /// // book_tests: examples::of_settings_and_a_tick
    /// let mut entries = [Entry::default(); PLACES];
    /// // Served { setting: 2, count: 1 }, and the first entry is Entry { ticket: 7, units: 2 }.
    /// let served = book.tick(&mut entries)?;
    /// ```
    pub fn tick(&mut self, list: &mut [Entry]) -> Result<Served, BookFault>
        ensures answer { result ≡ (tick_outcome self.old list.old).answer }
        ensures after { self.new ≡ (tick_outcome self.old list.old).book }
        ensures list { list.new ≡ (tick_outcome self.old list.old).list }
        ensures gives { GivesSetting result list.new }
    {
        if list.len() < PLACES {
            return Err(BookFault::Short { needed: PLACES });
        }
        if self.tick == LAST_TICK {
            return Err(BookFault::LastTick { now: self.tick });
        }
        let setting = self.setting_bytes()[0];
        let count = self.jobs.serve(self.tick, setting, list);
        self.jobs.close_done();
        self.tick += 1;
        Ok(Served { setting, count })
    }
}
