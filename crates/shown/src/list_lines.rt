// List elements, an entry to a line, with the number of the cell where the cell file has it.
// Clone and Copy alone: what is told here is made, printed and never compared.
use crate::element_lines::NamedCause;
use crate::lines::Lines;
use cells::cell::Cell;
use lists::cell::CellIdentity;
use lists::cells::Cells;
use lists::entries::Entries;
use lists::entry::ListEntry;
use lists::kinds::{CellEntry, CompletedEntry, FailedEntry, Info};
use naming::names::{is_meant, names_only_first};
use std::{fmt, io};

// What an entry names, without the numbers.
#[derive(Clone, Copy)]
struct Identity(CellIdentity);

impl fmt::Display for Identity {
    fn fmt<W: fmt::Write>(&self, f: &mut fmt::Formatter<W>) -> fmt::Result {
        match self.0 {
            CellIdentity::LacCi(lac, ci) => write!(f, "LAC {lac:04x} CI {ci:04x}"),
            CellIdentity::Ci(ci) => write!(f, "CI {ci:04x}"),
            CellIdentity::Lac(lac) => write!(f, "LAC {lac:04x}"),
            CellIdentity::All => f.write_str("all cells"),
        }
    }
}

// Cells as an entry names them, beside the cells of the file.
#[derive(Clone, Copy)]
pub struct NamedCell<'a> {
    pub cell: CellIdentity,
    pub known: &'a [Cell],
}

impl fmt::Display for NamedCell<'_> {
    fn fmt<W: fmt::Write>(&self, f: &mut fmt::Formatter<W>) -> fmt::Result {
        let identity = Identity(self.cell);
        let mut numbered = self.known.iter().enumerate();
        let mut meant = numbered.filter(|(_, known)| is_meant(self.cell, known));
        let Some((first, _)) = meant.next() else {
            return write!(f, "{identity} (no cell of the file)");
        };
        write!(f, "{identity} (cell {first}")?;
        if !names_only_first(self.cell) {
            for (number, _) in meant {
                write!(f, ", {number}")?;
            }
        }
        f.write_str(")")
    }
}

// An entry, and what it says of the cells that it names.
pub trait Said: ListEntry + Copy {
    fn say<W: fmt::Write>(&self, f: &mut fmt::Formatter<W>) -> fmt::Result;
}

impl Said for CellEntry {
    fn say<W: fmt::Write>(&self, _f: &mut fmt::Formatter<W>) -> fmt::Result {
        Ok(())
    }
}

impl Said for CompletedEntry {
    fn say<W: fmt::Write>(&self, f: &mut fmt::Formatter<W>) -> fmt::Result {
        let count = self.count;
        match self.info {
            Info::Exact => write!(f, ": {count}"),
            Info::Overflow => write!(f, ": {count}, overflow: there were more"),
            Info::Unknown => write!(f, ": {count}, unknown: the count says nothing"),
        }
    }
}

impl Said for FailedEntry {
    fn say<W: fmt::Write>(&self, f: &mut fmt::Formatter<W>) -> fmt::Result {
        write!(f, ": cause {}", NamedCause(self.cause))
    }
}

// The line of an entry.
#[derive(Clone, Copy)]
struct EntryLine<'a, E> {
    entry: E,
    known: &'a [Cell],
}

impl<E: Said> fmt::Display for EntryLine<'_, E> {
    fn fmt<W: fmt::Write>(&self, f: &mut fmt::Formatter<W>) -> fmt::Result {
        let cell = NamedCell {
            cell: self.entry.identity(),
            known: self.known,
        };
        write!(f, "    {cell}")?;
        self.entry.say(f)
    }
}

impl<P: Print> Lines<'_, P> {
    fn list<E: Said>(&self, name: &str, entries: Entries<'_, E>) -> io::Result<()> {
        println!(self.rt; "  {name}:")?;
        for entry in entries {
            self.rt.println(EntryLine {
                entry,
                known: self.known,
            })?;
        }
        Ok(())
    }

    pub fn cells(&self, cells: Cells<'_>) -> io::Result<()> {
        match cells {
            Cells::All => self.element("Cell List", "all cells"),
            Cells::Named(entries) => self.list("Cell List", entries),
        }
    }

    pub fn completed(&self, entries: Entries<'_, CompletedEntry>) -> io::Result<()> {
        self.list("Number of Broadcasts Completed List", entries)
    }

    pub fn failures(&self, entries: Entries<'_, FailedEntry>) -> io::Result<()> {
        self.list("Failure List", entries)
    }
}
