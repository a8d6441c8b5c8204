// The examples that the public items of the records and of the transcript give.
use layout::is_printable;
use record::{
    Job, Kind, LABEL_LEN, LAST_TICK, Offer, RECORD_LEN, ReadFault, Reader, Record, UnknownKind,
    shown, write,
};
use std::test::Fail;
use transcript::{Bench, BenchFault, Transcript};

const JOB: Job = Job {
    ticket: 7,
    arrival: 1,
    deadline: 258,
    work: 3,
};

#[test]
fn of_kinds(rt: HostRuntime) {
    assert_eq!(rt; Kind::try_from(0x53), Ok(Kind::Strike));
    assert_eq!(rt; Kind::try_from(0x58), Err(UnknownKind(0x58)));
    assert_eq!(rt; u8::from(Kind::Strike), 0x53);
    assert!(rt; is_printable(b'~'));
    assert!(rt; !is_printable(0x7f));
}

#[test]
fn of_forbidden_bytes(rt: HostRuntime) {
    assert_eq!(rt;
        Kind::Tick.first_forbidden(b"T\0\0\0\0\0\0\0\0\0\0\0\0\0\0\0\0\0      "),
        None
    );
    assert_eq!(rt;
        Kind::Tick.first_forbidden(b"T\0\0\x07\0\0\0\0\0\0\0\0\0\0\0\0\0\0fader "),
        Some(3)
    );
}

#[test]
fn of_a_job_in_bytes(rt: HostRuntime) {
    let bytes = JOB.to_record(0x4a, &[0; LABEL_LEN]);
    let want = [
        0x4a, 0, 0, 7, 0, 0, 0, 0, 0, 1, 0, 0, 0, 0, 1, 2, 0, 3, 0, 0, 0, 0, 0, 0,
    ];
    assert_eq!(rt; bytes, want);
    assert_eq!(rt; Job::of_record(&bytes), JOB);
}

#[test]
fn of_ticks_past_the_last(rt: HostRuntime) {
    assert_eq!(rt; LAST_TICK, 281_474_976_710_655);
    let late = Job {
        arrival: LAST_TICK,
        deadline: LAST_TICK + 3,
        ..JOB
    };
    let early = Job {
        arrival: LAST_TICK,
        deadline: 2,
        ..JOB
    };
    assert_eq!(rt; Job::of_record(&late.to_record(0x4a, b"fader ")), early);
}

#[test]
fn of_served_work(rt: HostRuntime) {
    let mut job = JOB;
    assert_eq!(rt; job.serve(2), 2);
    assert_eq!(rt; job, Job { work: 1, ..JOB });
    assert_eq!(rt; job.serve(2), 1);
    assert_eq!(rt; job, Job { work: 0, ..JOB });
    assert_eq!(rt; job.serve(2), 0);
}

#[test]
fn of_reading(rt: HostRuntime) {
    let mut reader = Reader::new(b"S\0\0\x07\0\0\0\0\0\0\0\0\0\0\0\0\0\0      T\0\0");
    assert_eq!(rt; reader.read(), Ok(Some(Record::Strike { ticket: 7 })));
    assert_eq!(rt; reader.offset(), 24);
    assert_eq!(rt; reader.read(), Err(ReadFault::Cut { offset: 24 }));
    assert_eq!(rt; Reader::new(b"").read(), Ok(None));
}

#[test]
fn of_writing(rt: HostRuntime) -> Result<(), Fail> {
    let mut bytes = [0; RECORD_LEN];
    if write(&Record::Strike { ticket: 7 }, &mut bytes).is_err() {
        return Err(Fail::new("the record was not written"));
    }
    assert_eq!(rt;
        Reader::new(&bytes).read(),
        Ok(Some(Record::Strike { ticket: 7 }))
    );
    Ok(())
}

#[test]
fn of_labels(rt: HostRuntime) {
    let offer = Record::Offer(Offer {
        job: JOB,
        label: b"fader",
    });
    assert_eq!(rt; offer.label(), b"fader".as_slice());
    assert_eq!(rt; Record::Strike { ticket: 7 }.label(), b"".as_slice());
    assert_eq!(rt; Record::Tick.label(), b"".as_slice());
    assert_eq!(rt; shown(b"fader", b"house"), b"fader".as_slice());
    assert_eq!(rt; shown(b"", b"house"), b"house".as_slice());
}

#[test]
fn of_a_bench(rt: HostRuntime) -> Result<(), Fail> {
    let mut bench = Bench::new(b"T\0\0\0\0\0\0\0\0\0\0\0\0\0\0\0\0\0      ");
    let Some(line) = bench.next() else {
        return Err(Fail::new("there is no line"));
    };
    let text = format!(in rt.alloc(); "{line}")?;
    assert_eq!(rt; text.as_str(), "T 0 0");
    assert!(rt; bench.next().is_none());
    Ok(())
}

#[test]
fn of_a_transcript(rt: HostRuntime) -> Result<(), Fail> {
    let text = Transcript::of(b"S\0\0\x07\0\0\0\0\0\0\0\0\0\0\0\0\0\0      T\0");
    let text = format!(in rt.alloc(); "{text}")?;
    assert_eq!(rt; text.as_str(), "R 0 9 7\nR 24 1 24\n");
    Ok(())
}

#[test]
fn of_the_end_of_a_run(rt: HostRuntime) {
    assert!(rt; BenchFault::from(ReadFault::Cut { offset: 24 }).ends_run());
    assert!(rt; !BenchFault::from(ReadFault::UnknownKind { offset: 24 }).ends_run());
}
