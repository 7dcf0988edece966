// Lists read, for every kind of entry: a list is checked once, and its entries are then given where they stand.
ghost use Rattle.std.specs.Prelude.{◌≡◌, ◌+◌, ◌<◌, ◌≤◌, length, IfOk};
ghost use Rattle.elements.specs.Octets.{Got};
ghost use Rattle.elements.specs.Reads.{Reads};
ghost use Rattle.lists.specs.Entries.{read_entries, read_entry, read_form};
ghost use Rattle.lists.specs.Forms.{form_code, form_number};
ghost use Rattle.lists.specs.Listed.{Counted, Whole, listed};
ghost use Rattle.lists.specs.Lists.{end_of, heading as heading_of, read_list};
ghost use Rattle.lists.specs.Views.{entries_from};

use crate::cell::read_cell;
use crate::entries::{Entries, EntryView, ListHead};
use crate::entry::ListEntry;
use crate::form::Form;
use cbsp::octets::two_at;
use elements::faults::{ElementFault, EntryFault};
use elements::reader::Reader;
use std::marker::PhantomData;

impl ListHead {
    // The discriminator of the entry at the reader's place.
    pub(crate) fn read_form<E: ListEntry>(self, reader: &mut Reader<'_>) -> Result<Form, EntryFault>
        requires { reader.old.at < length reader.old.octets.now }
        ensures value { Reads form_code reader.old result reader.new (read_form E.ListEntry.kind (form_number self.form) reader.old.octets.now reader.old.at) }
        ensures bound { IfOk result (λ _. (reader.old.at ≤ reader.new.at) × (reader.new.at ≤ length reader.old.octets.now)) }
    {
        let start = reader.at;
        let form = if E::HEADED {
            self.form
        } else {
            reader.at += 1;
            Form::try_from(reader.octets[start]).ok()
        };
        match form {
            Some(own) if E::takes(own) => Ok(own),
            _ => Err(EntryFault { place: start }),
        }
    }

    // The entry at the reader's place, before the end.
    pub fn read_entry<E: ListEntry>(self, reader: &mut Reader<'_>) -> Result<E, EntryFault>
        requires { reader.old.at < length reader.old.octets.now }
        ensures value { Reads E.ListEntry.meant reader.old result reader.new (read_entry E.ListEntry.kind self.broken (form_number self.form) (length reader.old.octets.now) reader.old.octets.now reader.old.at) }
        ensures bound { IfOk result (λ _. (reader.old.at < reader.new.at) × (reader.new.at ≤ length reader.old.octets.now)) }
    {
        let form = self.read_form::<E>(reader)?;
        let cell = read_cell(reader, Some(form), self.broken)?;
        let tail = reader.at;
        if reader.left() < E::TAIL {
            return Err(self.broken);
        }
        reader.at += E::TAIL;
        E::make(cell, &reader.octets[tail..reader.at]).map_err(|flaw| EntryFault {
            place: tail + flaw.index,
        })
    }

    // How many entries stand from the reader's place to the end. A while: the reader itself says when the
    // entries end, and how many there are is what is sought.
    fn count_entries<E: ListEntry + Drop>(self, reader: Reader<'_>) -> Result<usize, EntryFault>
        requires { reader.at ≤ length reader.octets.now }
        ensures { Counted result (λ n. entries_from E.ListEntry.kind self.broken (form_number self.form) (length reader.entry.octets.now) reader.entry.octets.now n reader.entry.at) (read_entries E.ListEntry.kind self.broken (form_number self.form) (length reader.entry.octets.now) reader.entry.octets.now E.ListEntry.kind.most reader.entry.at) }
    {
        let mut rest = reader;
        let mut count = 0;
        while rest.at < rest.octets.len() {
            if count == E::MOST {
                return Err(self.broken);
            }
            let _entry: E = self.read_entry(&mut rest)?;
            count += 1;
        }
        Ok(count)
    }
}

// Where a list ends whose length stands at the reader's place. No split_first_chunk: a length that is cut off
// and a list that is are one fault, and the answer is a place.
pub fn end_of(reader: &Reader<'_>, start: usize) -> Result<usize, ElementFault>
    requires { reader.now.at ≤ length reader.now.octets.now }
    ensures { result ≡ end_of reader.now.octets.now start reader.now.at }
{
    let left = reader.left();
    if left < 2 {
        return Err(ElementFault::RunsPast(start));
    }
    let count = usize::from(two_at(reader.octets, reader.at));
    if left - 2 < count {
        return Err(ElementFault::RunsPast(start));
    }
    Ok(reader.at + 2 + count)
}

// The discriminator in the heading, where there is one, and the place of the first entry. By the index: that
// the octet is there was asked, for a fault of its own.
fn heading<E: ListEntry>(
    octets: &[u8],
    body: usize,
    end: usize,
) -> Result<(Option<Form>, usize), ElementFault>
    requires { (body + 2 ≤ end) × (end ≤ length octets.now) }
    ensures { Got form_number result (heading_of E.ListEntry.kind.headed E.ListEntry.kind.forms octets.now body end) }
{
    if !E::HEADED {
        return Ok((None, body + 2));
    }
    if body + 2 == end {
        return Err(ElementFault::OutOfRange(body));
    }
    match Form::try_from(octets[body + 2]) {
        Ok(form) if E::takes(form) => Ok((Some(form), body + 3)),
        _ => Err(ElementFault::OutOfRange(body + 2)),
    }
}

// The list whose length stands at the reader's place, checked, of an element that begins at `start`.
pub fn read_list<'a, E: ListEntry + Drop>(
    reader: &mut Reader<'a>,
    start: usize,
) -> Result<Entries<'a, E>, ElementFault>
    requires { reader.old.at ≤ length reader.old.octets.now }
    ensures value { Reads (listed E.ListEntry.kind E.ListEntry.meant) reader.old result reader.new (read_list E.ListEntry.kind reader.old.octets.now start reader.old.at) }
    ensures whole { IfOk result (Whole E.ListEntry.kind E.ListEntry.meant) }
{
    let body = reader.at;
    let end = end_of(reader, start)?;
    let (form, first) = heading::<E>(reader.octets, body, end)?;
    let head = ListHead {
        form,
        broken: EntryFault { place: body },
    };
    let entries = Reader {
        octets: &reader.octets[..end],
        at: first,
    };
    let left = head
        .count_entries::<E>(entries)
        .map_err(|fault| head.first_fault::<E>(entries, fault))?;
    if left == 0 {
        return Err(ElementFault::OutOfRange(body));
    }
    reader.at = end;
    Ok(Entries::Read(EntryView {
        reader: entries,
        head,
        left,
        kind: PhantomData,
    }))
}
