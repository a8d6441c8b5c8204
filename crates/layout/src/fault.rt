// Why a record is not read or not written.
ghost use Rattle.std.specs.Prelude.{◌≡◌};
ghost use Rattle.layout.specs.Refusals.{read_refusal, write_refusal};

use refusal::{Layer, Refusal};

/// Why a record is not read. Offsets count bytes from 0, from the start of the whole input.
#[derive(Clone, Copy, PartialEq, Eq, Debug)]
pub enum ReadFault {
    /// 1 to 23 bytes remain, from the offset on. The reader stays there.
    Cut { offset: usize },
    /// Byte 0 of the record at the offset is no kind. The reader moves on to the next record.
    UnknownKind { offset: usize },
    /// The byte at the offset is the first of its record after byte 0 that the layout forbids. The reader moves
    /// on to the next record.
    Forbidden { offset: usize },
}

/// The fields that the writer checks, by the numbers that a refusal gives them.
#[derive(Clone, Copy, PartialEq, Eq, Debug)]
pub enum WrittenField {
    /// The arrival of an offer, at most [`LAST_TICK`](crate::LAST_TICK).
    Arrival = 1,
    /// The deadline of an offer, at most [`LAST_TICK`](crate::LAST_TICK).
    Deadline = 2,
    /// The label of an offer: six bytes from 20 to 7E, hexadecimal.
    Label = 3,
}

/// Why a record is not written.
#[derive(Clone, Copy, PartialEq, Eq, Debug)]
pub enum WriteFault {
    /// The field does not fit its bytes in the record.
    Field(WrittenField),
    /// The list has fewer bytes than are needed.
    Short { needed: usize },
}

impl From<ReadFault> for Refusal {
    ghost from_gives = { λ fault refusal. refusal ≡ read_refusal fault };

    fn from(fault: ReadFault) -> Refusal {
        let (number, offset) = match fault {
            ReadFault::Cut { offset } => (1, offset),
            ReadFault::UnknownKind { offset } => (2, offset),
            ReadFault::Forbidden { offset } => (3, offset),
        };
        Refusal::with_value(Layer::Record, number, offset as u64)
    }
}

impl From<WriteFault> for Refusal {
    ghost from_gives = { λ fault refusal. refusal ≡ write_refusal fault };

    fn from(fault: WriteFault) -> Refusal {
        let (number, value) = match fault {
            WriteFault::Field(field) => (4, field as u64),
            WriteFault::Short { needed } => (10, needed as u64),
        };
        Refusal::with_value(Layer::Record, number, value)
    }
}
