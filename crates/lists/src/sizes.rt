// How entries end, by their discriminators alone.
ghost use Rattle.std.specs.Prelude.{◌≡◌, ◌<◌, ◌≤◌, cond, length};
ghost use Rattle.lists.specs.Forms.{form_number};
ghost use Rattle.lists.specs.Sizes.{entry_end, ill_sized};

use crate::entries::ListHead;
use crate::entry::ListEntry;
use elements::faults::EntryFault;
use elements::reader::Reader;

impl ListHead {
    // The place after the entry at the reader's place, nothing where its discriminator may not stand.
    fn entry_end<E: ListEntry>(self, reader: Reader<'_>) -> Option<usize>
        requires { reader.at < length reader.octets.now }
        ensures { result ≡ entry_end E.ListEntry.kind (form_number self.form) reader.entry.octets.now reader.entry.at }
    {
        let mut rest = reader;
        let form = self.read_form::<E>(&mut rest).ok()?;
        Some(rest.at + form.width() + E::TAIL)
    }

    // Whether an entry from the reader's place on breaks off, or there are too many of them.
    fn is_ill_sized<E: ListEntry>(self, reader: Reader<'_>) -> bool
        ensures { result ≡ ill_sized E.ListEntry.kind (form_number self.form) (length reader.entry.octets.now) reader.entry.octets.now E.ListEntry.kind.most reader.entry.at }
    {
        let end = reader.octets.len();
        let mut rest = reader;
        for _ in 0..E::MOST {
            if rest.at >= end {
                return false;
            }
            match self.entry_end::<E>(rest) {
                None => return false,
                Some(next) if next > end => return true,
                Some(next) => rest.at = next,
            }
        }
        rest.at < end
    }

    // The fault that comes first, where one was found in an entry: that entries are ill sized is placed before
    // all that is in them.
    pub(crate) fn first_fault<E: ListEntry>(
        self,
        entries: Reader<'_>,
        found: EntryFault,
    ) -> EntryFault
        ensures { result ≡ cond (ill_sized E.ListEntry.kind (form_number self.form) (length entries.entry.octets.now) entries.entry.octets.now E.ListEntry.kind.most entries.entry.at) self.broken found }
    {
        if self.is_ill_sized::<E>(entries) {
            self.broken
        } else {
            found
        }
    }
}
