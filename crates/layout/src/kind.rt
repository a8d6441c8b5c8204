// Where the fields of a record stand, its kinds, and the bytes that each kind allows.
ghost use Rattle.std.specs.Prelude.{◌≡◌, drop};
ghost use Rattle.std.specs.Option.{ok_or};
ghost use Rattle.layout.specs.Layout.{kind_byte, kind_of, numbers_end, is_printable, is_allowed, first_forbidden};

/// The index of the first byte of the ticket, 2. A field ends where the next one begins.
pub const TICKET: usize = 2;

/// The index of the first byte of the arrival, 4.
pub const ARRIVAL: usize = 4;

/// The index of the first byte of the deadline, 10.
pub const DEADLINE: usize = 10;

/// The index of the first byte of the work, 16.
pub const WORK: usize = 16;

/// The index of the first byte of the label, 18. The label ends with the record.
pub const LABEL: usize = 18;

/// The bytes of a label: 6.
pub const LABEL_LEN: usize = 6;

/// The bytes of a record: 24.
pub const RECORD_LEN: usize = LABEL + LABEL_LEN;

/// What a record is, with the byte 0 that says so.
///
/// ```text
/// // record_tests: examples::of_kinds
/// Kind::try_from(0x53)     // Ok(Kind::Strike)
/// Kind::try_from(0x58)     // Err(UnknownKind(0x58))
/// u8::from(Kind::Strike)   // 0x53
/// ```
#[derive(Clone, Copy, PartialEq, Eq, Debug)]
pub enum Kind {
    /// A job is offered.
    Offer = 0x4f,
    /// An open job is to be closed.
    Strike = 0x53,
    /// The tick at now is to be served.
    Tick = 0x54,
}

/// A byte that stands for no kind.
#[derive(Clone, Copy, PartialEq, Eq, Debug)]
pub struct UnknownKind(pub u8);

impl From<Kind> for u8 {
    ghost from_gives = { λ kind byte. byte ≡ kind_byte kind };

    fn from(kind: Kind) -> u8 {
        kind as u8
    }
}

impl TryFrom<u8> for Kind {
    type Error = UnknownKind;

    ghost try_from_gives = { λ byte outcome. outcome ≡ ok_or (kind_of byte) (record { 0 = byte }) };

    /// The kind with this byte 0.
    ///
    /// # Refusals
    ///
    /// - `UnknownKind`: no kind has it.
    fn try_from(byte: u8) -> Result<Kind, UnknownKind> {
        match byte {
            0x4f => Ok(Kind::Offer),
            0x53 => Ok(Kind::Strike),
            0x54 => Ok(Kind::Tick),
            _ => Err(UnknownKind(byte)),
        }
    }
}

/// Whether a label may hold the byte: 20 to 7E, hexadecimal.
///
/// ```text
/// // record_tests: examples::of_kinds
/// is_printable(b'~')   // true
/// is_printable(0x7f)   // false
/// ```
pub fn is_printable(byte: u8) -> bool
    ensures { result ≡ is_printable byte }
{
    matches!(byte, b' '..=b'~')
}

impl Kind {
    // Where the numbers of a record of this kind end; zeros follow up to the label.
    fn numbers_end(self) -> usize
        ensures { result ≡ numbers_end self }
    {
        match self {
            Kind::Offer => LABEL,
            Kind::Strike => ARRIVAL,
            Kind::Tick => TICKET,
        }
    }

    // Whether the layout allows the byte with the index, after byte 0.
    fn allows(self, index: usize, byte: u8) -> bool
        ensures { result ≡ is_allowed self index byte }
    {
        if index < LABEL {
            (TICKET..self.numbers_end()).contains(&index) || byte == 0
        } else {
            match self {
                Kind::Offer => is_printable(byte),
                Kind::Strike | Kind::Tick => byte == b' ',
            }
        }
    }

    /// The index of the first byte after byte 0 that the layout of the kind forbids.
    ///
    /// ```text
    /// // record_tests: examples::of_forbidden_bytes
    /// Kind::Tick.first_forbidden(b"T\0\0\0\0\0\0\0\0\0\0\0\0\0\0\0\0\0      ")   // None
    /// Kind::Tick.first_forbidden(b"T\0\0\x07\0\0\0\0\0\0\0\0\0\0\0\0\0\0fader ")   // Some(3)
    /// ```
    pub fn first_forbidden(self, bytes: &[u8]) -> Option<usize>
        ensures { result ≡ first_forbidden self 1 (drop 1 bytes.now) }
    {
        // Over the indices: bytes that are taken with theirs, from the second on, take longer.
        (1..bytes.len()).find(|&index| !self.allows(index, bytes[index]))
    }
}
