// Ready jobs: the earliest deadline first, then the least ticket.
ghost use Rattle.std.specs.Prelude.{◌≡◌};
ghost use Rattle.queue.specs.Elements.{is_ready_before, is_ready_same};
ghost use Rattle.std.proofs.Common.{rules};

use super::fault::QueueFault;
use super::heap::Queue;
use super::order::Rank;

/// A job whose window has begun.
#[derive(Clone, Copy, PartialEq, Eq, Debug, Default)]
pub struct ReadyJob {
    /// The tick by which its work is done: the least comes first.
    pub deadline: u64,
    /// Its ticket: of one deadline the least comes first.
    pub ticket: u16,
    /// Where the job stands in the list of jobs that it is from; it plays no part in the order.
    pub index: u8,
}

// Written for each element type, with laws that the check finds: a key with an `Ord` would hide what before and same
// rank are.
impl Rank for ReadyJob {
    ghost before = { is_ready_before };

    ghost same = { is_ready_same };

    ghost one = { Prim.search rules };

    ghost ordered = { Prim.search rules };

    ghost tied = { Prim.search rules };

    fn is_before(&self, other: &ReadyJob) -> bool {
        (self.deadline, self.ticket) < (other.deadline, other.ticket)
    }
}

/// A queue of ready jobs, in slots that the caller lends.
pub type ReadyQueue<'a> = Queue<'a, ReadyJob>;

// `put` is not of every `Queue`: of elements of no size there can be 2^64 − 1 slots, and no `usize` counts one more.
impl ReadyQueue<'_> {
    ghost use Rattle.queue.specs.Slots.{slots_of};
    ghost use Rattle.queue.specs.Says.{PutLeaves, put_answer};

    /// Adds a job. Where it refuses, all is as before.
    ///
    /// # Refusals
    ///
    /// - [`QueueFault::Full`]: every slot is taken.
    ///
    /// ```text
    /// // queue_tests: examples::of_a_ready_queue
    /// let mut slots = [ReadyJob::default(); 1];
    /// let mut ready = ReadyQueue::new(&mut slots);
    /// ready.put(ReadyJob { deadline: 9, ticket: 1, index: 0 });   // Ok(())
    /// ready.put(ReadyJob { deadline: 5, ticket: 2, index: 1 });   // Err(QueueFault::Full { needed: 2 })
    /// ```
    pub fn put(&mut self, job: ReadyJob) -> Result<(), QueueFault>
        ensures answer { result ≡ put_answer (slots_of self.old) }
        ensures after { PutLeaves job (slots_of self.old) (slots_of self.new) }
        ensures lender { self.new.slots.ghost_name ≡ self.old.slots.ghost_name }
    {
        let needed = self.slots.len() + 1;
        self.try_put(job).map_err(|_| QueueFault::Full { needed })
    }
}
