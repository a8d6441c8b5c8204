use super::samples::{OFFER, STRIKE, TICK};
use record::{Job, Offer, ReadFault, Reader, Record, shown};
use std::process::Abort;
use std::test::Fail;

// What may stand at each byte: k the kind, z zero, n any byte of a number, p a byte of a label, s a space.
const OFFER_CODES: &[u8; 24] = b"kznnnnnnnnnnnnnnnnpppppp";

const STRIKE_CODES: &[u8; 24] = b"kznnzzzzzzzzzzzzzzssssss";

const TICK_CODES: &[u8; 24] = b"kzzzzzzzzzzzzzzzzzssssss";

// The edges of the bytes that each of these allows.
const EDGES: [u8; 8] = [0x00, 0x01, 0x1f, 0x20, 0x21, 0x7e, 0x7f, 0xff];

fn may_stand(code: u8, byte: u8) -> bool {
    match code {
        b'z' => byte == 0,
        b'n' => true,
        b'p' => matches!(byte, 0x20..=0x7e),
        b's' => byte == 0x20,
        _ => false,
    }
}

// The fault of the first record, and the offset after it.
fn first_fault(input: &[u8]) -> (Option<ReadFault>, usize) {
    let mut reader = Reader::new(input);
    let fault = reader.read().err();
    (fault, reader.offset())
}

// Every edge at one byte of a record.
fn check_byte(rt: &impl Abort, good: [u8; 24], at: usize, code: u8) {
    assert!(rt; at < 24);
    for byte in EDGES {
        let mut bytes = good;
        bytes[at] = byte;
        let fault = (!may_stand(code, byte)).then_some(ReadFault::Forbidden { offset: at });
        assert_eq!(rt; first_fault(&bytes), (fault, 24));
    }
}

fn check_bytes(rt: &impl Abort, good: [u8; 24], codes: &[u8; 24]) {
    for (at, code) in codes.iter().enumerate().skip(1) {
        check_byte(rt, good, at, *code);
    }
}

#[test]
fn an_offer_has_its_layout(rt: HostRuntime) {
    check_bytes(&rt, OFFER, OFFER_CODES);
}

#[test]
fn a_strike_has_its_layout(rt: HostRuntime) {
    check_bytes(&rt, STRIKE, STRIKE_CODES);
}

#[test]
fn a_tick_has_its_layout(rt: HostRuntime) {
    check_bytes(&rt, TICK, TICK_CODES);
}

#[test]
fn each_kind_is_read(rt: HostRuntime) {
    let offer = Offer {
        job: Job {
            ticket: 7,
            arrival: 0x0102_0304_0506,
            deadline: 0x0708_090a_0b0c,
            work: 0x0d0e,
        },
        label: b"fader",
    };
    assert_eq!(rt; Reader::new(&OFFER).read(), Ok(Some(Record::Offer(offer))));
    assert_eq!(rt;
        Reader::new(&STRIKE).read(),
        Ok(Some(Record::Strike { ticket: 0x0102 }))
    );
    assert_eq!(rt; Reader::new(&TICK).read(), Ok(Some(Record::Tick)));
}

#[test]
fn only_three_bytes_are_kinds(rt: HostRuntime) {
    for kind in 0..=255u8 {
        let mut bytes = TICK;
        bytes[0] = kind;
        let is_kind = matches!(kind, 0x4f | 0x53 | 0x54);
        let fault = (!is_kind).then_some(ReadFault::UnknownKind { offset: 0 });
        assert_eq!(rt; first_fault(&bytes), (fault, 24));
    }
}

#[test]
fn a_cut_record_is_not_passed(rt: HostRuntime) {
    for len in 1..24 {
        assert!(rt; len <= TICK.len());
        assert_eq!(rt;
            first_fault(&TICK[0..len]),
            (Some(ReadFault::Cut { offset: 0 }), 0)
        );
    }
}

#[test]
fn the_input_ends_after_whole_records(rt: HostRuntime) {
    assert_eq!(rt; Reader::new(b"").read(), Ok(None));
    let mut reader = Reader::new(&TICK);
    assert_eq!(rt; reader.read(), Ok(Some(Record::Tick)));
    assert_eq!(rt; reader.read(), Ok(None));
    assert_eq!(rt; reader.read(), Ok(None));
    assert_eq!(rt; reader.offset(), 24);
}

#[test]
fn bad_records_are_passed_over(rt: HostRuntime) {
    let mut input = [0x20u8; 95];
    input[0] = 0x58;
    input[24..48].copy_from_slice(&STRIKE);
    input[41] = 1;
    input[48..72].copy_from_slice(&STRIKE);
    let mut reader = Reader::new(&input);
    assert_eq!(rt; reader.read(), Err(ReadFault::UnknownKind { offset: 0 }));
    assert_eq!(rt; reader.read(), Err(ReadFault::Forbidden { offset: 41 }));
    assert_eq!(rt; reader.read(), Ok(Some(Record::Strike { ticket: 0x0102 })));
    assert_eq!(rt; reader.offset(), 72);
    assert_eq!(rt; reader.read(), Err(ReadFault::Cut { offset: 72 }));
    assert_eq!(rt; reader.offset(), 72);
}

// The label that is read where these six bytes stand.
fn check_label(rt: &impl Abort, six: &[u8; 6], want: &[u8]) -> Result<(), Fail> {
    let mut bytes = OFFER;
    bytes[18..24].copy_from_slice(six);
    let mut reader = Reader::new(&bytes);
    let Ok(Some(Record::Offer(offer))) = reader.read() else {
        return Err(Fail::new("no offer was read"));
    };
    assert_eq!(rt; offer.label, want);
    Ok(())
}

#[test]
fn only_the_last_spaces_go(rt: HostRuntime) -> Result<(), Fail> {
    check_label(&rt, b"fader ", b"fader")?;
    check_label(&rt, b"faders", b"faders")?;
    check_label(&rt, b" a  b ", b" a  b")?;
    check_label(&rt, b"     x", b"     x")?;
    check_label(&rt, b"x     ", b"x")?;
    check_label(&rt, b"~ ~ ~ ", b"~ ~ ~")?;
    check_label(&rt, b"!~!~!~", b"!~!~!~")?;
    check_label(&rt, b"      ", b"")
}

#[test]
fn a_blank_label_shows_the_default(rt: HostRuntime) {
    assert_eq!(rt; shown(b"", b"house"), b"house".as_slice());
    assert_eq!(rt; shown(b"x", b"house"), b"x".as_slice());
    assert_eq!(rt; shown(b" x", b"house"), b" x".as_slice());
    assert_eq!(rt; shown(b"", b""), b"".as_slice());
}
