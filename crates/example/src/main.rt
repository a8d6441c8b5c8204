// Opens a book and offers it three jobs, prints the settings in force, serves ticks until no job is open, and saves the
// book.
#![tactic(auto)]

use anyhow::anyhow;
use book::{Book, BookFault, Entry, HORIZON, IMAGE_LEN, Job, PLACES, RECORD_LEN};
use refusal::Refusal;

// Tells a refusal by its number and its values.
fn refused(fault: BookFault) -> anyhow::Error {
    anyhow!("refused: {}", Refusal::from(fault))
}

// The job with this ticket, window and work.
fn job(ticket: u16, arrival: u64, deadline: u64, work: u16) -> Job {
    Job {
        ticket,
        arrival,
        deadline,
        work,
    }
}

// A book at 0 with top 4 and three jobs.
fn new_book() -> Result<Book, BookFault> {
    let mut book = Book::new();
    book.open(0, 4)?;
    book.offer(job(1, 0, 3, 2))?;
    book.offer(job(2, 0, 2, 3))?;
    book.offer(job(3, 1, 2, 1))?;
    Ok(book)
}

fn print_settings(rt: &impl Print, book: &Book) -> anyhow::Result<()> {
    let mut settings = [0; HORIZON];
    book.settings(&mut settings).map_err(refused)?;
    println!(rt; "settings {:?} and so on", &settings[..4])?;
    Ok(())
}

fn print_entries(rt: &impl Print, entries: &[Entry]) -> anyhow::Result<()> {
    for entry in entries {
        print!(rt; ", ticket {} gets {}", entry.ticket, entry.units)?;
    }
    println!(rt; "")?;
    Ok(())
}

// Serves ticks until no job is open. `HORIZON` ticks are enough: no deadline lies further ahead.
fn serve(rt: &impl Print, book: &mut Book) -> anyhow::Result<()> {
    let mut entries = [Entry::default(); PLACES];
    for _ in 0..HORIZON {
        if book.jobs().is_empty() {
            break;
        }
        let now = book.now();
        let served = book.tick(&mut entries).map_err(refused)?;
        print!(rt; "tick {now}: setting {}", served.setting)?;
        print_entries(rt, &entries[..served.count])?;
    }
    Ok(())
}

// Prints the first of the image's 65 records, which has now and the top.
fn print_image(rt: &impl Print, book: &Book) -> anyhow::Result<()> {
    let mut image = [0; IMAGE_LEN];
    book.save(&mut image).map_err(refused)?;
    print!(rt; "image ")?;
    for byte in &image[..RECORD_LEN] {
        print!(rt; "{byte:02x}")?;
    }
    println!(rt; "")?;
    Ok(())
}

fn main(rt: HostRuntime) -> anyhow::Result<()> {
    let mut book = new_book().map_err(refused)?;
    print_settings(&rt, &book)?;
    serve(&rt, &mut book)?;
    print_image(&rt, &book)
}
