use book::BookFault;
use record::{ReadFault, WriteFault, WrittenField};
use refusal::{Layer, Refusal, Values};
use std::test::Fail;
use transcript::BenchFault;

#[test]
fn each_fault_has_its_number_and_value(rt: HostRuntime) {
    assert_eq!(rt;
        Refusal::from(ReadFault::Cut { offset: 72 }),
        Refusal::with_value(Layer::Record, 1, 72)
    );
    assert_eq!(rt;
        Refusal::from(ReadFault::UnknownKind { offset: 72 }),
        Refusal::with_value(Layer::Record, 2, 72)
    );
    assert_eq!(rt;
        Refusal::from(ReadFault::Forbidden { offset: 73 }),
        Refusal::with_value(Layer::Record, 3, 73)
    );
    assert_eq!(rt;
        Refusal::from(WriteFault::Field(WrittenField::Arrival)),
        Refusal::with_value(Layer::Record, 4, 1)
    );
    assert_eq!(rt;
        Refusal::from(WriteFault::Field(WrittenField::Deadline)),
        Refusal::with_value(Layer::Record, 4, 2)
    );
    assert_eq!(rt;
        Refusal::from(WriteFault::Field(WrittenField::Label)),
        Refusal::with_value(Layer::Record, 4, 3)
    );
    assert_eq!(rt;
        Refusal::from(WriteFault::Short { needed: 24 }),
        Refusal::with_value(Layer::Record, 10, 24)
    );
}

fn passed_up(fault: ReadFault) -> Result<(), BenchFault> {
    Err(fault)?;
    Ok(())
}

fn book_passed_up(fault: BookFault) -> Result<(), BenchFault> {
    Err(fault)?;
    Ok(())
}

#[test]
fn a_fault_passes_up_whole(rt: HostRuntime) {
    let fault = ReadFault::Forbidden { offset: 73 };
    let whole = BenchFault::Book(BookFault::Read(fault));
    assert_eq!(rt; passed_up(fault), Err(whole));
    assert_eq!(rt;
        Refusal::from(whole),
        Refusal::with_value(Layer::Record, 3, 73)
    );
    assert!(rt; !whole.ends_run());
    assert!(rt; !BenchFault::from(ReadFault::UnknownKind { offset: 72 }).ends_run());
    assert!(rt; BenchFault::from(ReadFault::Cut { offset: 72 }).ends_run());
}

#[test]
fn a_fault_of_the_book_passes_up_whole(rt: HostRuntime) {
    let fault = BookFault::NotOpen { ticket: 9 };
    assert_eq!(rt; book_passed_up(fault), Err(BenchFault::Book(fault)));
    assert_eq!(rt;
        Refusal::from(BenchFault::Book(fault)),
        Refusal::with_value(Layer::Book, 9, 9)
    );
    assert!(rt; !BenchFault::Book(fault).ends_run());
}

#[test]
fn a_refusal_is_printed_by_number_and_values(rt: HostRuntime) -> Result<(), Fail> {
    let one = format!(in rt.alloc(); "{}", Refusal::with_value(Layer::Record, 1, 48))?;
    assert_eq!(rt; one.as_str(), "1 48");
    let one = format!(in rt.alloc(); "{}", Refusal::with_value(Layer::Record, 13, 65))?;
    assert_eq!(rt; one.as_str(), "13 65");
    let overload = Refusal {
        layer: Layer::Bench,
        number: 8,
        values: Values::Three(1, 2, u64::MAX),
    };
    let three = format!(in rt.alloc(); "{overload}")?;
    assert_eq!(rt; three.as_str(), "8 1 2 18446744073709551615");
    Ok(())
}
