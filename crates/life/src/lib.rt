//! The life of a book: the requests that a console makes of it, and what is promised of every life.
//!
//! A life begins with an accepted open or load. Then come any calls of offer, strike, tick and the questions. A tally
//! is kept of what the calls ask, answer and write, and of nothing else; the promises are made of that tally.
//! [`handle`] keeps them, for whatever life the book has had.
//!
//! ```text
//! // book_tests: examples::of_a_life
//! let mut book = Book::new();
//! book.open(0, 4)?;
//! let mut list = [Entry::default(); PLACES];
//! let job = Job { ticket: 7, arrival: 0, deadline: 2, work: 3 };
//! handle(&mut book, &Request::Offer(job), &mut list)?; // Response::Offered { ticket: 7 }
//! handle(&mut book, &Request::Tick, &mut list)?; // Response::Served(Served { setting: 2, count: 1 })
//! ```
#![tactic(auto)]

ghost use Rattle.std.specs.Prelude.{◌≡◌};
ghost use Rattle.life.specs.Life.{Life, EndsIn, life_with};
ghost use Rattle.life.specs.Promises.{Keeps};
ghost use Rattle.life.specs.Requests.{request_outcome, event_of};

use book::{Book, BookFault, Entry, Job, Served};
use record::{Offer, Record};

/// What a console asks of a book.
#[derive(Clone, Copy, PartialEq, Eq, Debug)]
pub enum Request {
    /// To add the job to the open ones.
    Offer(Job),
    /// To close the open job with the ticket.
    Strike { ticket: u16 },
    /// To serve the tick at now.
    Tick,
}

/// What it is answered, where it is not refused.
#[derive(Clone, Copy, PartialEq, Eq, Debug)]
pub enum Response {
    /// The job with the ticket is open now.
    Offered { ticket: u16 },
    /// The job with the ticket is closed now.
    Struck { ticket: u16 },
    /// A tick is served.
    Served(Served),
}

impl Request {
    ghost use Rattle.record.specs.Content.{content_of};
    ghost use Rattle.life.specs.Requests.{request_of};

    /// What a record asks of a book. The label of an offer plays no part in it.
    ///
    /// ```text
    /// // book_tests: examples::of_a_request
    /// Request::of(&Record::Strike { ticket: 7 }) // Request::Strike { ticket: 7 }
    /// ```
    pub fn of(said: &Record) -> Request
        ensures { result ≡ request_of (content_of said.now) }
    {
        match *said {
            Record::Offer(Offer { job, .. }) => Request::Offer(job),
            Record::Strike { ticket } => Request::Strike { ticket },
            Record::Tick => Request::Tick,
        }
    }

    // Makes the request of the book. The law is proved of `handle` from this contract.
    fn apply(&self, book: &mut Book, list: &mut [Entry]) -> Result<Response, BookFault>
        ensures answer { result ≡ (request_outcome book.old self.now list.old).answer }
        ensures after { book.new ≡ (request_outcome book.old self.now list.old).book }
        ensures list { list.new ≡ (request_outcome book.old self.now list.old).list }
    {
        Ok(match *self {
            Request::Offer(job) => {
                book.offer(job)?;
                Response::Offered { ticket: job.ticket }
            }
            Request::Strike { ticket } => {
                book.strike(ticket)?;
                Response::Struck { ticket }
            }
            Request::Tick => Response::Served(book.tick(list)?),
        })
    }
}

/// Makes the request of the book. The list is for the entries of a tick, which needs 64 elements; the other requests
/// leave it.
///
/// Every life that ends in the book as it was goes on with this call: it ends in the book as it is then, and keeps
/// the three promises (`Keeps`, specs/Promises.antt).
///
/// # Refusals
///
/// Those of the book's own call, [`Book::offer`], [`Book::strike`] or [`Book::tick`]. The book and the list are as
/// they were then.
///
/// ```text
/// // book_tests: examples::of_handle
/// handle(&mut book, &Request::Strike { ticket: 7 }, &mut list)?; // Response::Struck { ticket: 7 }
/// ```
pub fn handle(book: &mut Book, request: &Request, list: &mut [Entry]) -> Result<Response, BookFault>
    ensures answer { result ≡ (request_outcome book.old request.now list.old).answer }
    ensures after { book.new ≡ (request_outcome book.old request.now list.old).book }
    ensures list { list.new ≡ (request_outcome book.old request.now list.old).list }
    ensures law { (life : Life) → EndsIn life book.old →
        EndsIn (life_with life (event_of request.now list.old result list.new)) book.new
        × Keeps (life_with life (event_of request.now list.old result list.new)) }
{
    request.apply(book, list)
}
