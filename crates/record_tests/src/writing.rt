use super::samples::{OFFER, STRIKE, TICK};
use record::{Job, Offer, Reader, Record, WriteFault, WrittenField, write};
use std::process::Abort;

// The greatest number in six bytes.
const LAST_TICK: u64 = 281_474_976_710_655;

fn offer(arrival: u64, deadline: u64, label: &[u8]) -> Record<'_> {
    Record::Offer(Offer {
        job: Job {
            ticket: 65_535,
            arrival,
            deadline,
            work: 65_535,
        },
        label,
    })
}

// The record is written into a list of 26 bytes AA, of which 25 are lent: the last two stay.
fn check_written(rt: &impl Abort, entry: &Record, want: &[u8; 24]) {
    let mut bytes = [0xaau8; 26];
    assert_eq!(rt; write(entry, &mut bytes[..25]), Ok(()));
    let mut whole = [0xaau8; 26];
    whole[..24].copy_from_slice(want);
    assert_eq!(rt; bytes, whole);
}

#[test]
fn each_kind_is_written(rt: HostRuntime) {
    let entry = Record::Offer(Offer {
        job: Job {
            ticket: 7,
            arrival: 0x0102_0304_0506,
            deadline: 0x0708_090a_0b0c,
            work: 0x0d0e,
        },
        label: b"fader ",
    });
    check_written(&rt, &entry, &OFFER);
    check_written(&rt, &Record::Strike { ticket: 0x0102 }, &STRIKE);
    check_written(&rt, &Record::Tick, &TICK);
}

// The record is refused with a list of `len` bytes, which stay as they were.
fn check_refused(rt: &impl Abort, entry: &Record, len: usize, want: WriteFault) {
    let mut bytes = [0xaau8; 24];
    assert!(rt; len <= 24);
    assert_eq!(rt; write(entry, &mut bytes[..len]), Err(want));
    assert_eq!(rt; bytes, [0xaa; 24]);
}

fn check_field(rt: &impl Abort, entry: &Record, field: WrittenField) {
    check_refused(rt, entry, 24, WriteFault::Field(field));
    check_refused(rt, entry, 23, WriteFault::Field(field));
}

#[test]
fn fields_that_do_not_fit_are_refused_in_order(rt: HostRuntime) {
    check_field(
        &rt,
        &offer(LAST_TICK + 1, LAST_TICK + 1, b"fader"),
        WrittenField::Arrival,
    );
    check_field(&rt, &offer(u64::MAX, 0, b"fader "), WrittenField::Arrival);
    check_field(
        &rt,
        &offer(LAST_TICK, LAST_TICK + 1, b"fader"),
        WrittenField::Deadline,
    );
    check_field(&rt, &offer(0, u64::MAX, b"fader "), WrittenField::Deadline);
    check_field(&rt, &offer(0, 0, b"fader"), WrittenField::Label);
    check_field(&rt, &offer(0, 0, b"faders!"), WrittenField::Label);
    check_field(&rt, &offer(0, 0, b""), WrittenField::Label);
    check_field(&rt, &offer(0, 0, b"fader\x1f"), WrittenField::Label);
    check_field(&rt, &offer(0, 0, b"\x7fader "), WrittenField::Label);
}

fn check_too_short(rt: &impl Abort, entry: &Record) {
    for len in 0..24 {
        check_refused(rt, entry, len, WriteFault::Short { needed: 24 });
    }
}

#[test]
fn a_short_list_is_refused(rt: HostRuntime) {
    check_too_short(&rt, &offer(LAST_TICK, LAST_TICK, b"  ~~  "));
    check_too_short(&rt, &Record::Strike { ticket: 1 });
    check_too_short(&rt, &Record::Tick);
}

// The records stand in a file one after another.
fn file_of(rt: &impl Abort, entries: &[Record; 4]) -> [u8; 96] {
    let mut file = [0u8; 96];
    for (entry, bytes) in entries.iter().zip(file.chunks_mut(24)) {
        assert_eq!(rt; write(entry, bytes), Ok(()));
    }
    file
}

#[test]
fn what_is_written_reads_back(rt: HostRuntime) {
    let entries = [
        offer(LAST_TICK, 0, b" ~ ~  "),
        Record::Strike { ticket: 65_535 },
        Record::Tick,
        offer(0, LAST_TICK, b"      "),
    ];
    let file = file_of(&rt, &entries);
    let mut reader = Reader::new(&file);
    assert_eq!(rt; reader.read(), Ok(Some(offer(LAST_TICK, 0, b" ~ ~"))));
    assert_eq!(rt; reader.read(), Ok(Some(Record::Strike { ticket: 65_535 })));
    assert_eq!(rt; reader.read(), Ok(Some(Record::Tick)));
    assert_eq!(rt; reader.read(), Ok(Some(offer(0, LAST_TICK, b""))));
    assert_eq!(rt; reader.read(), Ok(None));
}
