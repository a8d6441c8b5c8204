// The call of the book that an item says, and the line of what it answers.
use super::item::Item;
use book::{Book, BookFault, Entry, IMAGE_LEN, PLACES, Served};
use life::{Request, Response, handle};
use record::{ReadFault, Reader};
use refusal::Refusal;
use std::fmt;
use transcript::ServedTick;

// What a call answers. `{}` writes its line without the line feed.
#[derive(Clone, Copy)]
pub(super) enum Answer {
    Loaded,
    Offered { ticket: u16 },
    Struck { ticket: u16 },
    Ticked(ServedTick),
    Refused(Refusal),
}

impl fmt::Display for Answer {
    fn fmt<W: fmt::Write>(&self, f: &mut fmt::Formatter<W>) -> fmt::Result {
        match *self {
            Answer::Loaded => write!(f, "L ok"),
            Answer::Offered { ticket } => write!(f, "O {ticket} ok"),
            Answer::Struck { ticket } => write!(f, "S {ticket} ok"),
            Answer::Ticked(tick) => write!(f, "{tick}"),
            Answer::Refused(refusal) => write!(f, "R {refusal}"),
        }
    }
}

// Loads the image. Blank records follow those of an item that is whole, up to the last of an image.
fn load(book: &mut Book, records: &[u8], is_whole: bool) -> Result<Answer, BookFault> {
    let mut image = [0; IMAGE_LEN];
    match image.get_mut(..records.len()) {
        Some(first) if is_whole => {
            first.copy_from_slice(records);
            book.load(&image)?;
        }
        _ => book.load(records)?,
    }
    Ok(Answer::Loaded)
}

// Makes the request of a record.
fn request(book: &mut Book, bytes: &[u8]) -> Result<Answer, BookFault> {
    let record = Reader::new(bytes).read()?;
    let request = Request::of(&record.ok_or(ReadFault::Cut { offset: 0 })?);
    let now = book.now();
    let mut list = [Entry::default(); PLACES];
    Ok(match handle(book, &request, &mut list)? {
        Response::Offered { ticket } => Answer::Offered { ticket },
        Response::Struck { ticket } => Answer::Struck { ticket },
        Response::Served(Served { setting, count }) => Answer::Ticked(ServedTick {
            now,
            setting,
            list,
            count,
        }),
    })
}

// Makes the call that the item says.
pub(super) fn call(book: &mut Book, item: Item) -> Answer {
    let answer = match item {
        Item::Image { records, is_whole } => load(book, records, is_whole),
        Item::Record(bytes) => request(book, bytes),
    };
    answer.unwrap_or_else(|fault| Answer::Refused(fault.into()))
}
