// Entries one after the other.
ghost use Rattle.std.specs.Prelude.{◌≡◌};
ghost use Rattle.lists.specs.Listed.{Fewer, Next, left_of, listed, viewed};
ghost use Rattle.std.specs.Iterator.{at_most};

use crate::entries::{Entries, EntryView};
use crate::entry::ListEntry;

impl<E: ListEntry> Iterator for EntryView<'_, E> {
    type Item = E;

    ghost next_gives = { λ s r t. Next E.ListEntry.meant r (viewed E.ListEntry.kind s) (viewed E.ListEntry.kind t) × Fewer r s.left t.left };

    ghost remaining = { λ s. at_most s.left };

    fn next(&mut self) -> Option<E> {
        // a view whose fields were set by hand may say more than stand there
        if self.left == 0 || self.reader.at >= self.reader.octets.len() {
            return None;
        }
        let mut reader = self.reader;
        // no `.ok()?`: what the fault is then gets lost, and with it that nothing is left
        let Ok(entry) = self.head.read_entry(&mut reader) else {
            return None;
        };
        self.reader = reader;
        self.left -= 1;
        Some(entry)
    }
}

impl<E: ListEntry + Copy> Iterator for Entries<'_, E> {
    type Item = E;

    ghost next_gives = { λ s r t. Next E.ListEntry.meant r (listed E.ListEntry.kind E.ListEntry.meant s) (listed E.ListEntry.kind E.ListEntry.meant t) × Fewer r (left_of s) (left_of t) };

    ghost remaining = { λ s. at_most (left_of s) };

    fn next(&mut self) -> Option<E> {
        match self {
            Entries::Read(view) => view.next(),
            Entries::Given(slice) => {
                let (first, rest) = slice.split_first()?;
                *slice = rest;
                Some(*first)
            }
        }
    }
}
