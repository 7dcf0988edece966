// The entries of a Cell List, one after the other.
ghost use Rattle.std.specs.Prelude.{◌≡◌, ◌+◌, ◌<◌, ◌≤◌, length, fold};
ghost use Rattle.cells.specs.File.{Apart};
ghost use Rattle.naming.specs.Names.{names};
ghost use Rattle.lists.specs.CellLists.{cells_meant};
ghost use Rattle.lists.specs.Kinds.{cell_kind, cell_meant};
ghost use Rattle.lists.specs.Listed.{listed};
ghost use Rattle.naming.specs.Namings.{at_most, entered, identities_of, is_some, named_by, noted};
ghost use Rattle.naming.specs.Walks.{SameLoans, behind, is_at, stage_of};

use crate::list::MOST_NAMINGS;
use crate::marks::mark;
use crate::names::{is_meant, names_only_first};
use crate::naming::Naming;
use bounded::list::Bounded;
use cells::cell::{Cell, Identity};
use lists::cell::CellIdentity;
use lists::cells::Cells;
use lists::entries::Entries;
use lists::kinds::CellEntry;

// The marks, and what came of the entries so far, in memory that is lent. Lists often name one cell after the
// other, in the order of their numbers: `next` is the cell behind the last one that an entry named alone.
#[derive(Drop)]
pub(crate) struct Walk<'a> {
    pub(crate) marks: &'a mut [u8],
    pub(crate) out: &'a mut Bounded<Naming, MOST_NAMINGS>,
    pub(crate) next: usize,
}

// SameLoans stands in each: a struct of loans does not say by itself that it ends with the loans it had.
impl Walk<'_> {
    // A cell is named.
    fn note(&mut self, cell: usize)
        requires { at_most (stage_of self.old) ≤ 192 }
        ensures noted { stage_of self.new ≡ noted (stage_of self.old) cell }
        ensures next { self.new.next ≡ self.old.next }
        ensures same { SameLoans self.old self.new }
    {
        if mark(self.marks, cell) {
            self.out.push_reserved(Naming::Cell(cell));
        }
    }

    // The cells that an entry names, looked for among all; whether there is one. A bool: that is all that is
    // asked, and that there is none is no error here. A flag, no filter: after a closure that changes the walk, a
    // proof knows nothing of it.
    fn note_found(&mut self, cells: &[Cell], identity: CellIdentity) -> bool
        requires { at_most (stage_of self.old) ≤ 192 }
        ensures found { result ≡ is_some (names cells.now identity) }
        ensures noted { stage_of self.new ≡ fold noted (stage_of self.old) (names cells.now identity) }
        ensures next { self.new.next ≡ behind identity self.old.next (names cells.now identity) }
        ensures same { SameLoans self.old self.new }
    {
        let mut found = false;
        for (k, cell) in cells.iter().enumerate() {
            if is_meant(identity, cell) {
                self.note(k);
                if names_only_first(identity) {
                    self.next = k + 1;
                    return true;
                }
                found = true;
            }
        }
        found
    }

    // Whether the entry has the LAC and the CI of the next cell.
    fn is_next(&self, cells: &[Cell], identity: CellIdentity) -> bool
        ensures { result ≡ is_at cells.now self.now.next identity }
    {
        let CellIdentity::LacCi(lac, ci) = identity else {
            return false;
        };
        cells
            .get(self.next)
            .is_some_and(|cell| cell.identity == Identity { lac, ci })
    }

    // The cells that an entry names; whether there is one. No two cells have both LAC and CI in common, so that
    // no other has to be asked where the entry has those of the next.
    fn note_names(&mut self, cells: &[Cell], identity: CellIdentity) -> bool
        requires apart { Apart cells.now }
        requires room { at_most (stage_of self.old) ≤ 192 }
        ensures found { result ≡ is_some (names cells.now identity) }
        ensures noted { stage_of self.new ≡ fold noted (stage_of self.old) (names cells.now identity) }
        ensures next { self.new.next ≡ behind identity self.old.next (names cells.now identity) }
        ensures same { SameLoans self.old self.new }
    {
        if !self.is_next(cells, identity) {
            return self.note_found(cells, identity);
        }
        self.note(self.next);
        self.next += 1;
        true
    }

    // An entry: the cells that it names, or the entry itself where it names none.
    fn enter(&mut self, cells: &[Cell], identity: CellIdentity)
        requires apart { Apart cells.now }
        requires room { at_most (stage_of self.old) < 192 }
        ensures entered { stage_of self.new ≡ entered cells.now (stage_of self.old) identity }
        ensures next { self.new.next ≡ behind identity self.old.next (names cells.now identity) }
        ensures same { SameLoans self.old self.new }
    {
        if !self.note_names(cells, identity) {
            self.out.push_reserved(Naming::NoCell(identity));
        }
    }

    // Entries in list order. A for, no for_each: what it calls changes the walk.
    fn enter_all(&mut self, cells: &[Cell], entries: Entries<'_, CellEntry>)
        requires apart { Apart cells.now }
        requires room { at_most (stage_of self.old) + length (identities_of (listed cell_kind cell_meant entries)) ≤ 192 }
        ensures entered { stage_of self.new ≡ fold (entered cells.now) (stage_of self.old) (identities_of (listed cell_kind cell_meant entries.entry)) }
        ensures same { SameLoans self.old self.new }
    {
        for given in entries {
            self.enter(cells, given.cell);
        }
    }

    // All cells, or entries in list order.
    pub(crate) fn enter_list(&mut self, cells: &[Cell], list: Cells<'_>)
        requires apart { Apart cells.now }
        requires room { at_most (stage_of self.old) + length (named_by (cells_meant list)) ≤ 192 }
        ensures entered { stage_of self.new ≡ fold (entered cells.now) (stage_of self.old) (named_by (cells_meant list.entry)) }
        ensures same { SameLoans self.old self.new }
    {
        match list {
            Cells::All => self.enter(cells, CellIdentity::All),
            Cells::Named(entries) => self.enter_all(cells, entries),
        }
    }
}
