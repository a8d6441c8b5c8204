// The queue serves an element type of another crate, with an order of its own.
ghost use Rattle.std.specs.Prelude.{◌==◌, nat_lt};
ghost use Rattle.std.proofs.Common.{rules};

use queue::{Queue, Rank};

// A brightness: the greatest comes first.
#[derive(Clone, Copy, PartialEq, Debug)]
struct Brightness(u8);

impl Rank for Brightness {
    ghost before = { λ x y. nat_lt y.0 x.0 };

    ghost same = { λ x y. x.0 == y.0 };

    ghost one = { Prim.search rules };

    ghost ordered = { Prim.search rules };

    ghost tied = { Prim.search rules };

    fn is_before(&self, other: &Brightness) -> bool {
        self.0 > other.0
    }
}

#[test]
fn the_greatest_comes_first(rt: HostRuntime) {
    let mut slots = [Brightness(0); 3];
    let mut queue = Queue::new(&mut slots);
    for level in [40u8, 200, 90] {
        assert_eq!(rt; queue.try_put(Brightness(level)), Ok(()));
    }
    assert_eq!(rt; queue.try_put(Brightness(255)), Err(Brightness(255)));
    for level in [200u8, 90, 40] {
        assert_eq!(rt; queue.take(), Some(Brightness(level)));
    }
    assert_eq!(rt; queue.take(), None);
}
