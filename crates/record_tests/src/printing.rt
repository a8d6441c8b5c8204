use super::samples::{OFFER, STRIKE, TICK};
use std::alloc::{AllocError, Global};
use std::test::Fail;
use transcript::Transcript;

// An offer with numbers below 256.
fn offer(ticket: u8, arrival: u8, deadline: u8, work: u8, label: &[u8; 6]) -> [u8; 24] {
    let mut bytes = [0; 24];
    bytes[0] = b'O';
    bytes[3] = ticket;
    bytes[9] = arrival;
    bytes[15] = deadline;
    bytes[17] = work;
    bytes[18..24].copy_from_slice(label);
    bytes
}

// A strike of a ticket below 256.
fn strike(ticket: u8) -> [u8; 24] {
    let mut bytes = STRIKE;
    bytes[2] = 0;
    bytes[3] = ticket;
    bytes
}

// A file of these records.
fn file_of(alloc: Global, records: &[[u8; 24]]) -> Result<Vec<u8>, AllocError> {
    let mut input = Vec::new(alloc);
    for record in records {
        input.extend_from_slice(record)?;
    }
    Ok(input)
}

#[test]
fn no_record_prints_nothing(rt: HostRuntime) -> Result<(), Fail> {
    let text = format!(in rt.alloc(); "{}", Transcript::of(b""))?;
    assert_eq!(rt; text.as_str(), "");
    Ok(())
}

#[test]
fn each_record_prints_a_line(rt: HostRuntime) -> Result<(), Fail> {
    let mut input = [0u8; 120];
    input[0..24].copy_from_slice(&OFFER);
    input[24..48].copy_from_slice(&OFFER);
    input[42..48].copy_from_slice(b"      ");
    input[48..72].copy_from_slice(&STRIKE);
    input[72..96].copy_from_slice(&TICK);
    input[96..120].copy_from_slice(&TICK);
    input[102] = 1;
    let text = format!(in rt.alloc(); "{}", Transcript::of(&input))?;
    assert_eq!(rt;
        text.as_str(),
        "R 0 5 3\nR 24 5 3\nR 48 9 258\nT 0 0\nR 96 3 102\n"
    );
    Ok(())
}

#[test]
fn a_cut_record_is_the_last_line(rt: HostRuntime) -> Result<(), Fail> {
    let mut input = [0u8; 72];
    input[24..48].copy_from_slice(&TICK);
    input[48..72].copy_from_slice(&TICK);
    for len in 49..72 {
        assert!(rt; len <= input.len());
        let text = format!(in rt.alloc(); "{}", Transcript::of(&input[0..len]))?;
        assert_eq!(rt; text.as_str(), "R 0 2 0\nT 0 0\nR 48 1 48\n");
    }
    Ok(())
}

#[test]
fn the_records_are_worked(rt: HostRuntime) -> Result<(), Fail> {
    let records = [
        offer(7, 0, 2, 3, b"fader "),
        offer(9, 0, 3, 1, b"      "),
        TICK,
        offer(5, 1, 2, 5, b"cue   "),
        TICK,
        strike(9),
        strike(9),
    ];
    let input = file_of(rt.alloc(), &records)?;
    let text = format!(in rt.alloc(); "{}", Transcript::of(input.as_slice()))?;
    assert_eq!(rt;
        text.as_str(),
        "O 7 ok fader\nO 9 ok house\nT 0 2 7:2\nR 72 8 1 2 6\nT 1 1 7:1\nS 9 ok\nR 144 9 9\n"
    );
    Ok(())
}

#[test]
fn a_tick_prints_each_entry(rt: HostRuntime) -> Result<(), Fail> {
    let records = [
        offer(2, 0, 1, 3, b"b     "),
        offer(1, 0, 1, 1, b" a    "),
        TICK,
        TICK,
    ];
    let input = file_of(rt.alloc(), &records)?;
    let text = format!(in rt.alloc(); "{}", Transcript::of(input.as_slice()))?;
    assert_eq!(rt;
        text.as_str(),
        "O 2 ok b\nO 1 ok  a\nT 0 4 1:1 2:3\nT 1 0\n"
    );
    Ok(())
}
