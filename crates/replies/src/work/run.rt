// A request over its Cell List, and the lists of its reply.
ghost use Rattle.std.specs.Prelude.{◌≡◌, ◌≤◌, [], map, length, replicate, IfOk};
ghost use Rattle.cells.specs.File.{Apart};
ghost use Rattle.lists.specs.CellLists.{cells_meant};
ghost use Rattle.naming.specs.Namings.{named_by};
ghost use Rattle.rows.specs.Held.{rows_of};
ghost use Rattle.table.specs.Handling.{stage};
ghost use Rattle.replies.specs.Lists.{begun_entry, completed_entry, failed_entry, picked};
ghost use Rattle.replies.specs.Worked.{Ran, worked};

use super::Work;
use crate::collecting::collect;
use bounded::list::Bounded;
use cells::cell::Cell;
use cells::file::MOST_CELLS;
use lists::cells::Cells;
use lists::kinds::{CellEntry, CompletedEntry, FailedEntry};
use naming::list::name_cells;
use rows::rows::Rows;
use site::Site;
use std::alloc::{AllocError, Global};
use table::handling::handle;
use table::request::CellRequest;

impl Work {
    // No list has an entry.
    pub fn new(heap: Global) -> Result<Work, AllocError>
        ensures begun { IfOk result (λ work. work.begun ≡ []) }
        ensures completed { IfOk result (λ work. work.completed ≡ []) }
        ensures failed { IfOk result (λ work. work.failed ≡ []) }
    {
        let namings = Bounded::new(heap)?;
        let outcomes = Bounded::new(heap)?;
        let begun = Bounded::new(heap)?;
        let completed = Bounded::new(heap)?;
        let failed = Bounded::new(heap)?;
        Ok(Work {
            namings,
            outcomes,
            begun,
            completed,
            failed,
        })
    }

    // Cells in which the request did not fail. One accessor for each list: the fields are private, so that
    // only a request changes them.
    pub fn begun(&self) -> &[CellEntry]
        ensures { result.now ≡ self.now.begun }
    {
        self.begun.as_slice()
    }

    // Messages that ended, or were asked for.
    pub fn completed(&self) -> &[CompletedEntry]
        ensures { result.now ≡ self.now.completed }
    {
        self.completed.as_slice()
    }

    pub fn failed(&self) -> &[FailedEntry]
        ensures { result.now ≡ self.now.failed }
    {
        self.failed.as_slice()
    }

    // The request over what its list came to. There are as many rows as cells, which no type says here: the
    // two are lent apart, the rows for writing.
    fn handle_list<R: CellRequest, S: Site>(
        &mut self,
        request: &mut R,
        rows: &mut [Rows],
        cells: &[Cell],
        site: &S,
        list: Cells<'_>,
        marks: &mut [u8; MOST_CELLS],
    )
        requires apart { Apart cells.now }
        requires few { length (named_by (cells_meant list)) ≤ 128 }
        requires known { length rows.old ≡ length cells.now }
        ensures worked { stage request.new (map rows_of rows.new) self.new.outcomes ≡ worked R.CellRequest.acts cells.now (S.Site.model site.now).opened request.old (map rows_of rows.old) (cells_meant list.entry) }
        ensures clear { marks.new ≡ replicate 64 0 }
    {
        name_cells(cells, list, marks, &mut self.namings);
        self.outcomes.clear();
        handle(
            request,
            rows,
            cells,
            site,
            self.namings.as_slice(),
            &mut self.outcomes,
        );
    }

    // The lists of the reply.
    fn gather(&mut self, cells: &[Cell])
        ensures begun { self.new.begun ≡ picked (begun_entry cells.now) self.old.outcomes }
        ensures completed { self.new.completed ≡ picked (completed_entry cells.now) self.old.outcomes }
        ensures failed { self.new.failed ≡ picked (failed_entry cells.now) self.old.outcomes }
    {
        collect(cells, self.outcomes.as_slice(), &mut self.begun);
        collect(cells, self.outcomes.as_slice(), &mut self.completed);
        collect(cells, self.outcomes.as_slice(), &mut self.failed);
    }

    // A request over its Cell List, and the lists of its reply. The marks are clear after it.
    pub fn run<R: CellRequest, S: Site>(
        &mut self,
        request: &mut R,
        rows: &mut [Rows],
        cells: &[Cell],
        site: &S,
        list: Cells<'_>,
        marks: &mut [u8; MOST_CELLS],
    )
        requires apart { Apart cells.now }
        requires few { length (named_by (cells_meant list)) ≤ 128 }
        requires known { length rows.old ≡ length cells.now }
        ensures ran { Ran cells.now (worked R.CellRequest.acts cells.now (S.Site.model site.now).opened request.old (map rows_of rows.old) (cells_meant list.entry)) request.new (map rows_of rows.new) self.new }
        ensures clear { marks.new ≡ replicate 64 0 }
    {
        self.handle_list(request, rows, cells, site, list, marks);
        self.gather(cells);
    }
}
