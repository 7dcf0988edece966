// A request, by what it does in one cell after the other.
ghost use Rattle.std.specs.Prelude.{◌≡◌, ◌<◌, map, length};
ghost use Rattle.rows.specs.Held.{rows_of};
ghost use Rattle.table.specs.Acts.{Acts};
ghost use Rattle.table.specs.Pool.{PassedHoldNone};
ghost use Rattle.table.specs.Settings.{setting};

use crate::outcome::Outcome;
use crate::pool::Search;
use cells::cell::Capability;
use rows::rows::Rows;

pub trait CellRequest {
    // What comes of it in a cell, the messages of all cells after it, and the request itself after it.
    ghost acts: { Acts Self };

    fn apply(
        &mut self,
        rows: &mut [Rows],
        search: &mut Search,
        cell: usize,
        capability: Capability,
        opened: bool,
    ) -> Outcome
        requires there { cell < length rows.old }
        requires passed { PassedHoldNone search.old.passed (map rows_of rows.old) }
        ensures answer { result ≡ acts.answer self.old (setting (map rows_of rows.old) cell capability opened) }
        ensures leaves { map rows_of rows.new ≡ acts.leaves self.old (setting (map rows_of rows.old) cell capability opened) }
        ensures becomes { self.new ≡ acts.becomes self.old (setting (map rows_of rows.old) cell capability opened) }
        ensures passed { PassedHoldNone search.new.passed (map rows_of rows.new) };
}
