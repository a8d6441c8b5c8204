// What is told of the faults of the book.
use book::{BookFault, BookField};
use layout::ReadFault;
use refusal::{Layer, Refusal, Values};
use std::process::Abort;
use std::test::Fail;

fn check_told(rt: &impl Abort, fault: BookFault, number: u8, value: u64) {
    assert_eq!(rt;
        Refusal::from(fault),
        Refusal::with_value(Layer::Book, number, value)
    );
}

#[test]
fn each_fault_has_its_number_and_value(rt: HostRuntime) {
    check_told(&rt, BookFault::Field(BookField::Ticket), 5, 1);
    check_told(&rt, BookFault::Field(BookField::Arrival), 5, 2);
    check_told(&rt, BookFault::Field(BookField::Deadline), 5, 3);
    check_told(&rt, BookFault::Field(BookField::Work), 5, 4);
    check_told(&rt, BookFault::Field(BookField::Start), 5, 5);
    check_told(&rt, BookFault::Field(BookField::Top), 5, 6);
    check_told(&rt, BookFault::TicketOpen { ticket: 65_535 }, 6, 65_535);
    check_told(&rt, BookFault::Full { places: 64 }, 7, 64);
    check_told(&rt, BookFault::NotOpen { ticket: 9 }, 9, 9);
    check_told(&rt, BookFault::Short { needed: 256 }, 10, 256);
    check_told(
        &rt,
        BookFault::LastTick {
            now: 281_474_976_710_655,
        },
        11,
        281_474_976_710_655,
    );
    check_told(&rt, BookFault::Image { number: 65 }, 13, 65);
}

#[test]
fn an_overload_has_three_values(rt: HostRuntime) {
    let fault = BookFault::Overload {
        start: 1,
        end: 2,
        work: 6,
    };
    let told = Refusal {
        layer: Layer::Book,
        number: 8,
        values: Values::Three(1, 2, 6),
    };
    assert_eq!(rt; Refusal::from(fault), told);
}

fn read_by(fault: Result<(), ReadFault>) -> Result<(), BookFault> {
    fault?;
    Ok(())
}

#[test]
fn a_fault_of_the_reader_passes_up_whole(rt: HostRuntime) {
    for fault in [
        ReadFault::Cut { offset: 48 },
        ReadFault::UnknownKind { offset: 24 },
        ReadFault::Forbidden { offset: 25 },
    ] {
        assert_eq!(rt; read_by(Err(fault)), Err(BookFault::Read(fault)));
        assert_eq!(rt; Refusal::from(BookFault::Read(fault)), Refusal::from(fault));
    }
}

#[test]
fn each_fault_is_printed(rt: HostRuntime) -> Result<(), Fail> {
    let field = format!(in rt.alloc(); "{}", Refusal::from(BookFault::Field(BookField::Top)))?;
    assert_eq!(rt; field.as_str(), "5 6");
    let overload = BookFault::Overload {
        start: 0,
        end: 256,
        work: 65_535,
    };
    let text = format!(in rt.alloc(); "{}", Refusal::from(overload))?;
    assert_eq!(rt; text.as_str(), "8 0 256 65535");
    let read = format!(in rt.alloc();
        "{}",
        Refusal::from(BookFault::Read(ReadFault::Cut { offset: 48 }))
    )?;
    assert_eq!(rt; read.as_str(), "1 48");
    Ok(())
}
