//! Worked books: eight small cases with what the calls answer for each, by numbers.
//!
//! The table stands in specs/WorkedBooks.antt. It is proved of the definitions that the contracts of the calls cite,
//! so it is what the code answers too.
#![tactic(auto)]

ghost use Rattle.std.specs.Prelude.{◌≡◌};
ghost use Rattle.worked_books.specs.Numbers.{Numbers};
ghost use Rattle.worked_books.specs.WorkedBooks.{WorkedBooks};

/// How many worked books there are. Its contract holds the table of them, and the numbers of the rules.
#[tactic(auto, using(crate::proofs::Worked::all_worked, crate::proofs::Worked::numbers))]
pub fn worked_books() -> usize
    ensures count { result ≡ 8 }
    ensures books { WorkedBooks }
    ensures numbers { Numbers }
{
    8
}
