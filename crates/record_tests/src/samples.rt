// Records as they stand in a file, written out by hand.

// Ticket 7, arrival 0x010203040506, deadline 0x0708090a0b0c, work 0x0d0e, label `fader`.
pub const OFFER: [u8; 24] = [
    0x4f, 0, 0, 7, 1, 2, 3, 4, 5, 6, 7, 8, 9, 10, 11, 12, 13, 14, 0x66, 0x61, 0x64, 0x65, 0x72,
    0x20,
];

// Ticket 0x0102.
pub const STRIKE: [u8; 24] = [
    0x53, 0, 1, 2, 0, 0, 0, 0, 0, 0, 0, 0, 0, 0, 0, 0, 0, 0, 0x20, 0x20, 0x20, 0x20, 0x20, 0x20,
];

pub const TICK: [u8; 24] = [
    0x54, 0, 0, 0, 0, 0, 0, 0, 0, 0, 0, 0, 0, 0, 0, 0, 0, 0, 0x20, 0x20, 0x20, 0x20, 0x20, 0x20,
];
