// What the open jobs demand, seen from now.
ghost use Rattle.std.specs.Prelude.{◌≡◌, ◌≤◌, length, All};
ghost use Rattle.book.specs.Demands.{demand, demands};
ghost use Rattle.book.specs.Book.{IsOpenAt, IsInOrder};

use super::job::{window_from, window_to};
use super::table::PLACES;
use layout::Job;
use planner::{Demand, Demands};

// What the job demands, seen from now.
fn demand_of(job: &Job, now: u64) -> Demand
    requires { IsOpenAt now job.now }
    ensures { result ≡ demand now job.now }
{
    Demand {
        from: window_from(job, now) as u16,
        to: window_to(job, now) as u16,
        units: job.work,
    }
}

// What the jobs demand, written into these.
pub(super) fn demands_of<'a>(list: &'a mut [Demand; PLACES], jobs: &[Job], now: u64) -> Demands<'a>
    requires few { length jobs.now ≤ PLACES }
    requires in_order { IsInOrder jobs.now }
    requires open { All (IsOpenAt now) jobs.now }
    ensures { result ≡ demands now jobs.now }
{
    for (index, job) in jobs.iter().enumerate() {
        list[index] = demand_of(job, now);
    }
    Demands {
        list: &list[..jobs.len()],
    }
}
