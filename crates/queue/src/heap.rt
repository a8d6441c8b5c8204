// The queue as a binary heap: no element is before the one above it in the tree that lies in the filled slots.
ghost use Rattle.std.specs.Prelude.{◌≡◌, ℕ, ◌+◌, ◌-◌, ◌*◌, ◌<◌, ◌≤◌, ◌∷◌, false, drop, length, take, slice_index_or};
ghost use Rattle.std.specs.List.Sorted.{IsPermutation};
ghost use Rattle.queue.specs.Tree.{IsChild, IsHeap};

use super::order::Rank;

/// A priority queue in slots that the caller lends, for elements of any type with a total order.
///
/// The filled slots are a heap at all times, so a put and a take go through at most as many levels as the tree has.
// Slots with a count, and no `Vec`: the slots are the caller's, and a library takes no heap of memory.
// No `Model`: clauses name the lent slots, so that the caller gets its own list back.
#[derive(Drop)]
pub struct Queue<'a, T: Rank> {
    pub(super) slots: &'a mut [T],
    len: usize,
    ghost fits: { len ≤ length slots.now },
    ghost ordered: { IsHeap T.before (take len slots.now) },
}

// The child of this index that no child of it is before.
fn lesser_child<T: Rank>(heap: &[T], index: usize) -> usize
    requires { 2 * index + 1 < length heap.now }
    ensures child { (IsChild index result) × (result < length heap.now) }
    ensures least { (k : ℕ) (d : T) → IsChild index k → k < length heap.now
        → T.before (slice_index_or heap.now k d) (slice_index_or heap.now result d) ≡ false }
{
    let left = 2 * index + 1;
    let right = left + 1;
    if right < heap.len() && heap[right].is_before(&heap[left]) {
        right
    } else {
        left
    }
}

// Puts `moving` at the last index, or further up: each element above that it is before moves down one level first.
fn sift_up<T: Rank>(heap: &mut [T], moving: T)
    requires nonempty { 0 < length heap.old }
    requires ordered { IsHeap T.before (take (length heap.old - 1) heap.old) }
    ensures holds { IsPermutation (moving ∷ take (length heap.old - 1) heap.old) heap.new }
    ensures ordered { IsHeap T.before heap.new }
{
    let mut index = heap.len() - 1;
    // The index goes up the tree, by no iterator of a slice.
    while index > 0 {
        let parent = (index - 1) / 2;
        let above = heap[parent];
        if !moving.is_before(&above) {
            break;
        }
        heap[index] = above;
        index = parent;
    }
    heap[index] = moving;
}

// Puts `moving` at the first index, or further down: each lesser child that is before it moves up one level first.
fn sift_down<T: Rank>(heap: &mut [T], moving: T)
    requires nonempty { 0 < length heap.old }
    requires ordered { IsHeap T.before heap.old }
    ensures holds { IsPermutation (moving ∷ drop 1 heap.old) heap.new }
    ensures ordered { IsHeap T.before heap.new }
{
    let mut index = 0;
    // The index goes down the tree, by no iterator of a slice.
    while index < heap.len() / 2 {
        let child = lesser_child(heap, index);
        let below = heap[child];
        if !below.is_before(&moving) {
            break;
        }
        heap[index] = below;
        index = child;
    }
    heap[index] = moving;
}

impl<'a, T: Rank> Queue<'a, T> {
    ghost use Rattle.queue.specs.Slots.{slots_of};
    ghost use Rattle.queue.specs.Says.{PutLeaves, try_put_answer, TakeSays, LeastSays, ReplaceSays};

    /// An empty queue in these slots. It never refuses, and what the slots hold plays no part.
    ///
    /// ```text
    /// // queue_tests: examples::of_a_tick_queue
    /// let mut slots = [PlannedTick::default(); 2];
    /// let mut ticks = TickQueue::new(&mut slots);
    /// ticks.take();   // None
    /// ```
    pub fn new(slots: &'a mut [T]) -> Queue<'a, T>
        ensures empty { slots_of result ≡ record { slots = slots.old; count = 0 } }
        ensures lender { result.slots.ghost_name ≡ slots.entry.ghost_name }
    {
        Queue { slots, len: 0 }
    }

    /// Adds an element, or gives it back where every slot is taken.
    ///
    /// # Refusals
    ///
    /// - `Err(element)`: every slot is taken, and all is as before.
    ///
    /// ```text
    /// // queue_tests: examples::of_try_put
    /// let mut slots = [PlannedTick::default(); 1];
    /// let mut ticks = TickQueue::new(&mut slots);
    /// ticks.try_put(PlannedTick { units: 2, tick: 0 });   // Ok(())
    /// ticks.try_put(PlannedTick { units: 1, tick: 7 });   // Err(PlannedTick { units: 1, tick: 7 })
    /// ```
    pub fn try_put(&mut self, element: T) -> Result<(), T>
        ensures answer { result ≡ try_put_answer element (slots_of self.old) }
        ensures after { PutLeaves element (slots_of self.old) (slots_of self.new) }
        ensures lender { self.new.slots.ghost_name ≡ self.old.slots.ghost_name }
    {
        if self.len == self.slots.len() {
            return Err(element);
        }
        let len = self.len + 1;
        sift_up(&mut self.slots[..len], element);
        self.len = len;
        Ok(())
    }

    /// Removes an element that none is before, or answers none where none is held. Of several with one rank it is any.
    ///
    /// ```text
    /// // queue_tests: examples::of_a_tick_queue, where the ticks 0 with 2 units and 7 with 1 are held
    /// ticks.take();   // Some(PlannedTick { units: 1, tick: 7 })
    /// ticks.take();   // Some(PlannedTick { units: 2, tick: 0 })
    /// ticks.take();   // None
    /// ```
    pub fn take(&mut self) -> Option<T>
        ensures said { TakeSays T.before T.same (slots_of self.old) (slots_of self.new) result }
        ensures lender { self.new.slots.ghost_name ≡ self.old.slots.ghost_name }
    {
        let last = self.len.checked_sub(1)?;
        let first = self.slots[0];
        let moving = self.slots[last];
        self.len = last;
        if last > 0 {
            sift_down(&mut self.slots[..last], moving);
        }
        Some(first)
    }

    /// What `take` would answer: an element that none is before, which stays held, or none where none is held.
    ///
    /// ```text
    /// // queue_tests: examples::of_a_tick_queue, where the ticks 0 with 2 units and 7 with 1 are held
    /// ticks.least();   // Some(PlannedTick { units: 1, tick: 7 })
    /// ```
    pub fn least(&self) -> Option<T>
        ensures said { LeastSays T.before T.same (slots_of self.now) result }
    {
        if self.len == 0 {
            return None;
        }
        Some(self.slots[0])
    }

    /// Removes an element that none is before, and adds `element`, in one way down the tree: it answers what it
    /// removed.
    ///
    /// Where none is held it answers none, and adds nothing.
    ///
    /// ```text
    /// // queue_tests: examples::of_a_replacement, where the ticks 0 with 2 units and 7 with 1 are held
    /// ticks.replace_least(PlannedTick { units: 3, tick: 7 });   // Some(PlannedTick { units: 1, tick: 7 })
    /// ticks.least();   // Some(PlannedTick { units: 2, tick: 0 })
    /// ```
    pub fn replace_least(&mut self, element: T) -> Option<T>
        ensures said { ReplaceSays T.before T.same element (slots_of self.old) (slots_of self.new) result }
        ensures lender { self.new.slots.ghost_name ≡ self.old.slots.ghost_name }
    {
        if self.len == 0 {
            return None;
        }
        let least = self.slots[0];
        sift_down(&mut self.slots[..self.len], element);
        Some(least)
    }
}
