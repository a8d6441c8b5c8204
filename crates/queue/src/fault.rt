// Why an element is not added.
ghost use Rattle.std.specs.Prelude.{◌≡◌};
ghost use Rattle.queue.specs.Refusals.{queue_refusal};

use refusal::{Layer, Refusal};

/// Why an element is not added to a queue.
///
/// ```text
/// // queue_tests: slots::the_refusal_tells_the_slots_needed
/// Refusal::from(QueueFault::Full { needed: 3 });   // of layer Queue, number 10, value 3: it is printed as 10 3
/// ```
#[derive(Clone, Copy, PartialEq, Eq, Debug)]
pub enum QueueFault {
    /// Every slot is taken.
    Full {
        /// How many slots would be needed: one more than there are.
        needed: usize,
    },
}

impl From<QueueFault> for Refusal {
    ghost from_gives = { λ fault refusal. refusal ≡ queue_refusal fault };

    fn from(fault: QueueFault) -> Refusal {
        let QueueFault::Full { needed } = fault;
        Refusal::with_value(Layer::Queue, 10, needed as u64)
    }
}
