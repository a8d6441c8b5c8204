// A job, and the two directions between it and the bytes of a record.
ghost use Rattle.std.specs.Prelude.{◌≡◌, ◌^◌, ◌<◌, ◌≤◌, length, min};
ghost use Rattle.layout.specs.BigEndian.{number};
ghost use Rattle.layout.specs.Jobs.{job_in, job_after, record_bytes, IsSized};

use super::kind::{ARRIVAL, DEADLINE, LABEL, LABEL_LEN, RECORD_LEN, TICKET, WORK};

/// The last tick of all, 281,474,976,710,655: the greatest number that fits the six bytes of an arrival.
pub const LAST_TICK: u64 = (1 << 48) - 1;

// The number in at most eight bytes, the high byte first.
fn read_number(bytes: &[u8]) -> u64
    requires { length bytes.now ≤ 8 }
    ensures value { result ≡ number bytes.now }
    ensures fits { result < 256 ^ length bytes.now }
{
    // One number of eight bytes: a fold goes byte by byte.
    let mut padded = [0; 8];
    padded[8 - bytes.len()..].copy_from_slice(bytes);
    u64::from_be_bytes(padded)
}

/// A job: work that is to be done in a window of ticks.
///
/// Its window is every tick t with arrival <= t < deadline.
#[derive(Clone, Copy, PartialEq, Eq, Debug, Default)]
pub struct Job {
    /// Its number, 1 to 65,535.
    pub ticket: u16,
    /// The tick at which its window begins.
    pub arrival: u64,
    /// The tick right after its window.
    pub deadline: u64,
    /// Its work in units; in an open job, what is left of it.
    pub work: u16,
}

impl Job {
    /// The job in the 24 bytes of a record, whatever its other bytes are.
    ///
    /// ```text
    /// // record_tests: examples::of_a_job_in_bytes
    /// Job::of_record(&job.to_record(0x4a, &[0; LABEL_LEN]))   // job, where its ticks are at most LAST_TICK
    /// ```
    pub fn of_record(bytes: &[u8; RECORD_LEN]) -> Job
        ensures { result ≡ job_in bytes.now }
    {
        Job {
            ticket: read_number(&bytes[TICKET..ARRIVAL]) as u16,
            arrival: read_number(&bytes[ARRIVAL..DEADLINE]),
            deadline: read_number(&bytes[DEADLINE..WORK]),
            work: read_number(&bytes[WORK..LABEL]) as u16,
        }
    }

    /// The 24 bytes of a record with the job: the first byte, a zero, the four numbers, and the last six bytes.
    ///
    /// Of arrival and deadline the low six bytes.
    ///
    /// ```text
    /// // record_tests: examples::of_a_job_in_bytes
    /// let job = Job { ticket: 7, arrival: 1, deadline: 258, work: 3 };
    /// // [0x4a, 0, 0, 7, 0, 0, 0, 0, 0, 1, 0, 0, 0, 0, 1, 2, 0, 3, 0, 0, 0, 0, 0, 0]
    /// job.to_record(0x4a, &[0; LABEL_LEN])
    /// ```
    pub fn to_record(self, first: u8, last: &[u8; LABEL_LEN]) -> [u8; RECORD_LEN]
        ensures bytes { result ≡ record_bytes first self last.now }
        ensures sized { IsSized self }
    {
        let mut bytes = [0; RECORD_LEN];
        bytes[0] = first;
        bytes[TICKET..ARRIVAL].copy_from_slice(&self.ticket.to_be_bytes());
        bytes[ARRIVAL..DEADLINE].copy_from_slice(&self.arrival.to_be_bytes()[2..]);
        bytes[DEADLINE..WORK].copy_from_slice(&self.deadline.to_be_bytes()[2..]);
        bytes[WORK..LABEL].copy_from_slice(&self.work.to_be_bytes());
        bytes[LABEL..].copy_from_slice(last);
        bytes
    }

    /// Does what is left of its work, or the units if they are less, and answers how many units that took.
    ///
    /// ```text
    /// // record_tests: examples::of_served_work
    /// let mut job = Job { ticket: 7, arrival: 0, deadline: 2, work: 3 };
    /// job.serve(2)   // 2, and job.work is 1
    /// job.serve(2)   // 1, and job.work is 0
    /// ```
    pub fn serve(&mut self, units: u16) -> u16
        ensures units { result ≡ min self.old.work units }
        ensures after { self.new ≡ job_after self.old result }
    {
        let done = self.work.min(units);
        self.work -= done;
        done
    }
}
