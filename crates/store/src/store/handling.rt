// A request over its Cell List, and what its reply is made of.
ghost use Rattle.std.specs.Prelude.{◌≡◌, ◌≤◌, [], map, length, replicate, slice_index_or};
ghost use Rattle.lists.specs.CellLists.{cells_meant};
ghost use Rattle.lists.specs.Kinds.{cell_meant};
ghost use Rattle.naming.specs.Namings.{named_by};
ghost use Rattle.replies.specs.Worked.{Ran, worked};
ghost use Rattle.answering.specs.Replies.{entry_of};
ghost use Rattle.store.specs.Answered.{Kept};
ghost use Rattle.store.specs.Held.{cells_held, rows_held};

use super::Store;
use cells::cell::Cell;
use cells::file::MOST_CELLS;
use lists::cells::Cells;
use lists::kinds::CellEntry;
use rows::row::Row;
use site::Site;
use table::request::CellRequest;

impl Store {
    pub fn cells(&self) -> &[Cell]
        ensures value { result.now ≡ cells_held self.now }
        ensures few { length result.now ≤ 64 }
    {
        self.cells.cells()
    }

    // The messages that stand in a cell, the oldest first; none where there is no such cell.
    pub fn messages(&self, cell: usize) -> &[Row]
        ensures { result.now ≡ slice_index_or (rows_held self.now) cell [] }
    {
        self.rows.get(cell).map_or(&[], |rows| rows.as_slice())
    }

    // The cells as a Cell List names them.
    #[tactic(auto, using(crate::proofs::Entries::entries_mean))]
    pub fn entries(&self) -> &[CellEntry]
        ensures { map cell_meant result.now ≡ map entry_of (cells_held self.now) }
    {
        self.entries.as_slice()
    }

    // The request over its list; the lists of its reply are then in `work`. The marks are clear after it.
    pub(crate) fn handle<R: CellRequest, S: Site>(
        &mut self,
        request: &mut R,
        site: &S,
        list: Cells<'_>,
        marks: &mut [u8; MOST_CELLS],
    )
        requires { length (named_by (cells_meant list)) ≤ 128 }
        ensures few { length (cells_held self.old) ≤ 64 }
        ensures kept { Kept self.old self.new }
        ensures ran { Ran (cells_held self.old) (worked R.CellRequest.acts (cells_held self.old) (S.Site.model site.now).opened request.old (rows_held self.old) (cells_meant list.entry)) request.new (rows_held self.new) self.new.work }
        ensures clear { marks.new ≡ replicate 64 0 }
    {
        self.work.run(
            request,
            self.rows.as_mut_slice(),
            self.cells.cells(),
            site,
            list,
            marks,
        );
    }
}
