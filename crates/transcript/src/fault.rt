// The faults of the bench. Each layer keeps the fault of the layer below whole.
ghost use Rattle.std.specs.Prelude.{◌≡◌};
ghost use Rattle.transcript.specs.declared.fault.BenchFault.TheVariants.{Book};
ghost use Rattle.book.specs.declared.fault.BookFault.TheVariants.{Read};
ghost use Rattle.transcript.specs.Refusals.{bench_refusal, ends_run};

use book::BookFault;
use layout::ReadFault;
use refusal::Refusal;

/// Why the bench refuses a record.
#[derive(Clone, Copy, PartialEq, Eq, Debug)]
pub enum BenchFault {
    /// The book refuses the record, or it is not read.
    Book(BookFault),
}

impl From<BookFault> for BenchFault {
    ghost from_gives = { λ fault above. above ≡ Book fault };

    fn from(fault: BookFault) -> BenchFault {
        BenchFault::Book(fault)
    }
}

impl From<ReadFault> for BenchFault {
    ghost from_gives = { λ fault above. above ≡ Book (Read fault) };

    fn from(fault: ReadFault) -> BenchFault {
        BookFault::from(fault).into()
    }
}

impl From<BenchFault> for Refusal {
    ghost from_gives = { λ fault refusal. refusal ≡ bench_refusal fault };

    fn from(fault: BenchFault) -> Refusal {
        match fault {
            BenchFault::Book(book) => book.into(),
        }
    }
}

impl BenchFault {
    /// Whether the fault ends the run: no record can follow a cut one.
    ///
    /// ```text
    /// // record_tests: examples::of_the_end_of_a_run
    /// BenchFault::from(ReadFault::Cut { offset: 24 }).ends_run()          // true
    /// BenchFault::from(ReadFault::UnknownKind { offset: 24 }).ends_run()  // false
    /// ```
    pub fn ends_run(self) -> bool
        ensures { result ≡ ends_run self }
    {
        matches!(
            self,
            BenchFault::Book(BookFault::Read(ReadFault::Cut { .. }))
        )
    }
}
