// The order by which a queue serves.
ghost use Rattle.std.specs.Prelude.{◌≡◌, Bool, true};
ghost use Rattle.queue.specs.Order.{JustOne};

/// A total order of the elements of a queue.
///
/// Of any two elements just one holds: the first is before the second, both have the same rank, or the second is
/// before the first. Being before and having the same rank are both transitive.
// Not std's `Ord`: it asks the order to agree with `==`, and a job's `index` plays a part in `==` and none in its
// rank.
pub trait Rank: Copy {
    ghost before: { Self → Self → Bool };

    ghost same: { Self → Self → Bool };

    /// Whether this element is before the other, and so is served first.
    ///
    /// ```text
    /// // queue_tests: examples::of_ranks
    /// PlannedTick { units: 1, tick: 7 }.is_before(&PlannedTick { units: 2, tick: 0 });   // true
    /// ```
    fn is_before(&self, other: &Self) -> bool
        ensures { result ≡ before self.now other.now };

    ghost one: { (x y : Self) → JustOne (before x y) (same x y) (before y x) };

    ghost ordered: { (x y z : Self) → before x y ≡ true → before y z ≡ true → before x z ≡ true };

    ghost tied: { (x y z : Self) → same x y ≡ true → same y z ≡ true → same x z ≡ true };
}
