// The search for an overloaded interval.
ghost use Rattle.std.specs.Prelude.{◌≡◌, ◌≤◌, length, All};
ghost use Rattle.schedule.specs.Compressed.{NonEmpty};
ghost use Rattle.schedule.specs.InForce.{horizon};
ghost use Rattle.schedule.specs.Overload.{starts, first_overload};
ghost use Rattle.book.specs.Book.{IsOpenAt, IsInOrder};
ghost use Rattle.layout.specs.declared.job.TheConstants.{LAST_TICK};
ghost use Rattle.book.specs.Calls.{overload_fault};

use super::demands::demands_of;
use super::fault::BookFault;
use super::table::PLACES;
use layout::Job;
use planner::{Demand, Demands, HORIZON};

// Whether a window starts at the tick.
fn starts_at(demands: &Demands, from: u16) -> bool
    ensures { result ≡ starts from demands.now }
{
    demands.list.iter().any(|demand| demand.from == from)
}

// The overloaded interval with the least start and, among those, the least end.
fn first_overload(demands: &Demands, top: u8) -> Option<(u16, u16)>
    requires { NonEmpty horizon demands.now }
    ensures { result ≡ first_overload top demands.now 0 horizon }
{
    'search: {
        for from in 0..HORIZON as u16 {
            if !starts_at(demands, from) {
                continue;
            }
            // By deadline: what is added up lies inside the interval to the demand's end. Demands with the same end
            // may follow.
            let mut work = 0;
            for demand in demands.list {
                if demand.from < from {
                    continue;
                }
                work += u32::from(demand.units);
                if work > u32::from(top) * u32::from(demand.to - from) {
                    break 'search Some((from, demand.to));
                }
            }
        }
        None
    }
}

// The fault of the first overloaded interval, whose ticks count from now.
pub(super) fn overload_fault(jobs: &[Job], now: u64, top: u8) -> Option<BookFault>
    requires in_time { now ≤ LAST_TICK }
    requires few { length jobs.now ≤ PLACES }
    requires in_order { IsInOrder jobs.now }
    requires open { All (IsOpenAt now) jobs.now }
    ensures { result ≡ overload_fault (record { now = now; top = top; jobs = jobs.now }) }
{
    let mut demanded = [Demand::default(); PLACES];
    let demands = demands_of(&mut demanded, jobs, now);
    let (from, to) = first_overload(&demands, top)?;
    Some(BookFault::Overload {
        start: now + u64::from(from),
        end: now + u64::from(to),
        work: demands.work_inside(from, to),
    })
}
