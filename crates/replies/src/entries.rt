// The entry that an outcome has in a list of the reply, if it has one. Cells are named by LAC and CI. Three
// impls: each makes another entry of another part of the outcome.
ghost use Rattle.std.specs.Prelude.{◌≡◌, List, Option as Maybe};
ghost use Rattle.cells.specs.declared.cell.Cell.{Cell as Served};
ghost use Rattle.table.specs.declared.outcome.Outcome.{Outcome as Comes};
ghost use Rattle.replies.specs.Lists.{begun_entry, completed_entry, count_field, failed_entry, identity_at, info_field, whom_in};

use crate::identity::identity_of;
use cells::cell::Cell;
use lists::cell::CellIdentity;
use lists::kinds::{CellEntry, CompletedEntry, FailedEntry, Info};
use naming::naming::Naming;
use table::outcome::Outcome;

pub trait OutcomeEntry: Sized {
    ghost entry: { List Served → Comes → Maybe Self };

    fn of(cells: &[Cell], outcome: Outcome) -> Option<Self>
        ensures { result ≡ entry cells.now outcome };
}

// LAC and CI of a cell. Zeros past the list: no naming names a cell there, so that an Option would only be
// unwrapped.
fn identity_at(cells: &[Cell], cell: usize) -> CellIdentity
    ensures { result ≡ identity_at cells.now cell }
{
    cells
        .get(cell)
        .map_or(CellIdentity::LacCi(0, 0), |found| identity_of(found))
}

// A cell by its identity, or an entry that names none as it was given. No From: the cells stand beside what
// is told.
fn whom_in(cells: &[Cell], whom: Naming) -> CellIdentity
    ensures { result ≡ whom_in cells.now whom }
{
    match whom {
        Naming::Cell(cell) => identity_at(cells, cell),
        Naming::NoCell(identity) => identity,
    }
}

// A count as its two octets can say it, and whether they could.
fn counted(count: u64) -> (u16, Info)
    ensures field { result.0 ≡ count_field count }
    ensures info { result.1 ≡ info_field count }
{
    match u16::try_from(count) {
        Ok(exact) => (exact, Info::Exact),
        Err(_) => (u16::MAX, Info::Overflow),
    }
}

// A cell in which the request did not fail.
impl OutcomeEntry for CellEntry {
    ghost entry = { begun_entry };

    fn of(cells: &[Cell], outcome: Outcome) -> Option<CellEntry> {
        let cell = whom_in(cells, outcome.whom);
        outcome.cause.is_none().then_some(CellEntry { cell })
    }
}

// A message that ended, or was asked for, with its count.
impl OutcomeEntry for CompletedEntry {
    ghost entry = { completed_entry };

    fn of(cells: &[Cell], outcome: Outcome) -> Option<CompletedEntry> {
        let (count, info) = counted(outcome.ended?);
        Some(CompletedEntry {
            cell: whom_in(cells, outcome.whom),
            count,
            info,
        })
    }
}

// A failure, with its cause.
impl OutcomeEntry for FailedEntry {
    ghost entry = { failed_entry };

    fn of(cells: &[Cell], outcome: Outcome) -> Option<FailedEntry> {
        let cause = outcome.cause?;
        Some(FailedEntry {
            cell: whom_in(cells, outcome.whom),
            cause,
        })
    }
}
