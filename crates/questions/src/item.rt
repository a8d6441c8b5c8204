// The items of a file: images and records.
ghost use Rattle.std.specs.Prelude.{◌<◌, length};
ghost use Rattle.std.specs.Iterator.{at_most};

use record::RECORD_LEN;

// What an image begins with.
const IMAGE_START: u8 = 0x49;

// The bytes of an image before its records: the one that it begins with, and the count of its records.
const HEAD_LEN: usize = 2;

// An item. The last one may be cut, where the input ends.
#[derive(Clone, Copy)]
pub(super) enum Item<'a> {
    // The records of an image, and whether all that it counts are there.
    Image { records: &'a [u8], is_whole: bool },
    // The bytes of a record.
    Record(&'a [u8]),
}

// How many bytes the first item has, unless it is cut.
fn first_len(input: &[u8]) -> usize
    requires { 0 < length input.now }
    ensures { 0 < result }
{
    if input[0] == IMAGE_START {
        let count = input.get(1).copied().unwrap_or(0);
        HEAD_LEN + RECORD_LEN * usize::from(count)
    } else {
        RECORD_LEN
    }
}

// The items of an input.
#[derive(Drop)]
pub(super) struct Items<'a> {
    rest: &'a [u8],
}

impl<'a> Items<'a> {
    pub(super) fn of(input: &'a [u8]) -> Items<'a> {
        Items { rest: input }
    }
}

impl<'a> Iterator for Items<'a> {
    type Item = Item<'a>;

    ghost remaining = { λ items. at_most (length items.rest.now) };

    fn next(&mut self) -> Option<Item<'a>> {
        let rest = self.rest;
        let first = *rest.first()?;
        let len = first_len(rest);
        let (bytes, after) = rest.split_at(len.min(rest.len()));
        self.rest = after;
        Some(if first == IMAGE_START {
            Item::Image {
                records: bytes.get(HEAD_LEN..).unwrap_or_default(),
                is_whole: bytes.len() == len,
            }
        } else {
            Item::Record(bytes)
        })
    }
}
