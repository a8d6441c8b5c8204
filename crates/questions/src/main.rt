// Reads a file of images and records from standard input and works it with one book. After each it prints what the
// call answered, and then what every question answers, or `as before` where all four answer what they did before:
//
//     O 7 ok                    an offer, as S of a strike, T of a tick and L of an image that is loaded
//     R 8 1 2 6                 a call that is refused
//     settings 2*1 1*2 0*253    the settings in force in runs: the setting, and how many ticks have it
//     blocks 4/3@0-3            each critical block: work, length, first tick, the tick after the last
//     bills 2570 10 .. 2048 5   what the settings in force draw under each model
//     image 0:43.. same         the records that the book's image has not had before, and whether another book that has
//                               loaded it saves the same
#![tactic(auto)]

mod answers;
mod call;
mod item;
mod lines;
mod models;

use answers::{Answers, Questions};
use anyhow::anyhow;
use book::Book;
use call::call;
use item::Items;
use lines::Lines;
use models::Models;
use refusal::Refusal;
use std::io::{self, BufWriter, Read, Write};

// The most bytes that are read.
const MAX_INPUT: u64 = 2_097_152;

// What ends the program: a question that is refused, or a model.
fn refused<F: Into<Refusal>>(fault: F) -> anyhow::Error {
    let refusal: Refusal = fault.into();
    anyhow!("refused: {refusal}")
}

// Works the input item by item.
fn work<W: Write>(input: &[u8], out: &mut W) -> anyhow::Result<()> {
    let mut questions = Questions::new(Models::new().map_err(refused)?);
    let mut book = Book::new();
    let mut before = Answers::blank();
    for item in Items::of(input) {
        writeln!(out, "{}", call(&mut book, item))?;
        let answers = questions.ask(&book).map_err(refused)?;
        write!(out, "{}", Lines::new(&answers, &before))?;
        before = answers;
    }
    Ok(())
}

fn main(rt: HostRuntime) -> anyhow::Result<()> {
    let mut input = Vec::new(rt.alloc());
    rt.stdin().take(MAX_INPUT).read_to_end(&mut input)?;
    let mut out = BufWriter::new(rt.alloc(), io::writer(&rt))?;
    work(input.as_slice(), &mut out)?;
    out.flush()?;
    Ok(())
}
