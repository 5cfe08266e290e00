// The entries that fill a group: one reader for the three kinds of them.
ghost use Rattle.std.specs.Prelude.{◌≡◌, ℕ, ◌<◌, List, length};
ghost use Rattle.std.specs.Iterator.{YieldsFirst, item_count};
ghost use Rattle.packets.specs.Contents.{entries};
ghost use Rattle.packets.specs.Entries.{entries_left, first_entry, viewed_entry};

use std::marker::PhantomData;

// What is read from a fixed number of bytes.
pub trait Entry: Copy {
    ghost size: { ℕ };

    // What the first bytes say.
    ghost at: { List ℕ → Self };

    // The first entry, and the entries behind it.
    fn split(entries: &[u8]) -> Option<(Self, &[u8])>
        ensures { viewed_entry result ≡ first_entry at size entries.now };

    ghost some: { 0 < size };
}

// The whole entries of some bytes, one after the other.
#[derive(Drop)]
pub struct Entries<'a, E> {
    rest: &'a [u8],
    of: PhantomData<E>,
}

impl<'a, E: Entry> Entries<'a, E> {
    pub fn new(bytes: &'a [u8]) -> Entries<'a, E>
        ensures { entries_left E.at E.size result ≡ entries E.at E.size (length bytes.now) bytes.now }
    {
        Entries {
            rest: bytes,
            of: PhantomData,
        }
    }
}

impl<'a, E: Entry> Iterator for Entries<'a, E> {
    type Item = E;

    ghost next_gives = { YieldsFirst (entries_left E.at E.size) };

    ghost remaining = { item_count (entries_left E.at E.size) };

    fn next(&mut self) -> Option<E> {
        let (entry, rest) = E::split(self.rest)?;
        self.rest = rest;
        Some(entry)
    }
}
