// The list elements. They hand on to functions that ask less: these also measure lists too long for a message,
// and write entries that are out of range.
ghost use Rattle.std.specs.Prelude.{List};
ghost use Rattle.lists.specs.CellLists.{CellsV, cell_list, cells_meant};
ghost use Rattle.lists.specs.Entries.{Entry};
ghost use Rattle.lists.specs.Listed.{listed};
ghost use Rattle.lists.specs.Lists.{entry_list};

use crate::cells::Cells;
use crate::entries::Entries;
use crate::entry::ListEntry;
use crate::form::Form;
use crate::kinds::{CellEntry, CompletedEntry, FailedEntry};
use crate::measuring::{cells_width, list_width};
use crate::reading::{end_of, read_list};
use crate::writing::{put_cells, put_list};
use elements::element::{Element, Identified};
use elements::elements::limit;
use elements::faults::ElementFault;
use elements::reader::Reader;
use elements::writer::Writer;
use std::marker::PhantomData;

// A list of entries of one kind.
pub struct EntryList<const ID: u8, E>(PhantomData<E>);

// The Number of Broadcasts Completed List.
pub type CompletedList = EntryList<0x08, CompletedEntry>;

pub type FailureList = EntryList<0x09, FailedEntry>;

impl<const ID: u8, E> Identified for EntryList<ID, E> {
    const ID: u8 = ID;

    ghost ID = { ID };
}

impl<'a, const ID: u8, E: ListEntry + Copy + 'a> Element<'a> for EntryList<ID, E> {
    type Value = Entries<'a, E>;

    ghost Meaning = { List Entry };

    ghost meant = { listed E.ListEntry.kind E.ListEntry.meant };

    ghost body = { entry_list E.ListEntry.kind };

    fn read(reader: &mut Reader<'a>, start: usize) -> Result<Entries<'a, E>, ElementFault> {
        read_list(reader, start)
    }

    fn width(entries: Entries<'a, E>) -> Option<usize> {
        limit(2 + list_width(entries)?)
    }

    fn put(writer: &mut Writer<'_>, entries: Entries<'a, E>) {
        put_list(writer, entries);
    }
}

// The Cell List: all cells, which has no entries, or those of its entries. Not a kind of entry: a list of all
// cells has a discriminator and no entry, and is measured and read without one.
pub struct CellList;

type NamedCells = EntryList<0x04, CellEntry>;

impl Identified for CellList {
    const ID: u8 = 0x04;

    ghost ID = { 4 };
}

impl<'a> Element<'a> for CellList {
    type Value = Cells<'a>;

    ghost Meaning = { CellsV };

    ghost meant = { cells_meant };

    ghost body = { cell_list };

    fn read(reader: &mut Reader<'a>, start: usize) -> Result<Cells<'a>, ElementFault> {
        let body = reader.at;
        let end = end_of(reader, start)?;
        if reader.octets[..end].get(body + 2) == Some(&u8::from(Form::All)) {
            return if body + 3 == end {
                reader.at = end;
                Ok(Cells::All)
            } else {
                Err(ElementFault::OutOfRange(body))
            };
        }
        Ok(Cells::Named(NamedCells::read(reader, start)?))
    }

    fn width(cells: Cells<'a>) -> Option<usize> {
        limit(2 + cells_width(cells)?)
    }

    fn put(writer: &mut Writer<'_>, cells: Cells<'a>) {
        put_cells(writer, cells);
    }
}
