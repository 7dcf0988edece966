// KILL, MESSAGE STATUS QUERY and RESET in one cell. None of them asks what the cell can do, or whether it is open.
ghost use Rattle.std.specs.Prelude.{◌≡◌, ◌<◌, map, length};
ghost use Rattle.rows.specs.Held.{rows_of};
ghost use Rattle.table.specs.References.{counted, kill_acts, query_acts, reset_acts};
ghost use Rattle.table.specs.Settings.{setting};

use crate::at_cell::{clear_at, rows_at, take_at};
use crate::outcome::Outcome;
use crate::pool::Search;
use crate::request::CellRequest;
use cells::cell::Capability;
use elements::cause::Cause;
use naming::naming::Naming;
use rows::key::{Key, first_of};
use rows::row::Row;
use rows::rows::Rows;

// Ends the message that is the same. A type of its own beside Query's, since a request does what its type says.
#[derive(Clone, Copy, PartialEq, Eq, Debug)]
pub struct Kill {
    pub key: Key,
}

// Asks for the count of the message that is the same.
#[derive(Clone, Copy, PartialEq, Eq, Debug)]
pub struct Query {
    pub key: Key,
}

// Ends every message.
#[derive(Clone, Copy, PartialEq, Eq, Debug)]
pub struct Reset {}

// The count of a message that was found, or that there is none. A match: either way both parts are said.
fn counted_in(cell: usize, found: Option<Row>) -> Outcome
    ensures { result ≡ counted cell found }
{
    let whom = Naming::Cell(cell);
    match found {
        Some(row) => Outcome {
            whom,
            ended: Some(row.count),
            cause: None,
        },
        None => Outcome {
            whom,
            ended: None,
            cause: Some(Cause::MessageReferenceNotIdentified),
        },
    }
}

impl CellRequest for Kill {
    ghost acts = { kill_acts };

    fn apply(
        &mut self,
        rows: &mut [Rows],
        _search: &mut Search,
        cell: usize,
        _capability: Capability,
        _opened: bool,
    ) -> Outcome {
        counted_in(cell, take_at(rows, cell, self.key))
    }
}

impl CellRequest for Query {
    ghost acts = { query_acts };

    fn apply(
        &mut self,
        rows: &mut [Rows],
        _search: &mut Search,
        cell: usize,
        _capability: Capability,
        _opened: bool,
    ) -> Outcome {
        counted_in(cell, first_of(rows_at(rows, cell), self.key))
    }
}

impl CellRequest for Reset {
    ghost acts = { reset_acts };

    fn apply(
        &mut self,
        rows: &mut [Rows],
        _search: &mut Search,
        cell: usize,
        _capability: Capability,
        _opened: bool,
    ) -> Outcome {
        clear_at(rows, cell);
        Outcome {
            whom: Naming::Cell(cell),
            ended: None,
            cause: None,
        }
    }
}
