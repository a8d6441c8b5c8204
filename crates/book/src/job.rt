// What the book asks of jobs.
ghost use Rattle.std.specs.Prelude.{◌≡◌, ◌≤◌};
ghost use Rattle.book.specs.Jobs.{is_before};
ghost use Rattle.book.specs.Demands.{demand};
ghost use Rattle.book.specs.Outcomes.{ok_unless};
ghost use Rattle.book.specs.Calls.{field_fault};

use super::fault::BookField;
use layout::{Job, LAST_TICK};

// `HORIZON` as a number of 64 bits, as ticks of time are.
pub(super) const HORIZON_TICKS: u64 = planner::HORIZON as u64;

// Whether the first job is served before the other: it has the earlier deadline, or the same and the lesser ticket.
pub(super) fn is_before(job: &Job, other: &Job) -> bool
    ensures { result ≡ is_before job.now other.now }
{
    (job.deadline, job.ticket) < (other.deadline, other.ticket)
}

// The first tick of its window, in ticks from now.
pub(super) fn window_from(job: &Job, now: u64) -> u64
    ensures { result ≡ (demand now job.now).from }
{
    job.arrival.saturating_sub(now)
}

// The tick after the last of its window, in ticks from now.
pub(super) fn window_to(job: &Job, now: u64) -> u64
    ensures { result ≡ (demand now job.now).to }
{
    job.deadline.saturating_sub(now)
}

// Whether each field has a value that an offered job can have at now; if not, the first that has none.
pub(super) fn check_fields(job: &Job, now: u64) -> Result<(), BookField>
    requires { now ≤ LAST_TICK }
    ensures { result ≡ ok_unless (field_fault now job.now) tt }
{
    if job.ticket == 0 {
        return Err(BookField::Ticket);
    }
    if job.arrival < now {
        return Err(BookField::Arrival);
    }
    if job.deadline <= job.arrival
        || job.deadline > now + HORIZON_TICKS
        || job.deadline > LAST_TICK
    {
        return Err(BookField::Deadline);
    }
    if job.work == 0 {
        return Err(BookField::Work);
    }
    Ok(())
}
