// Making a store over a checked list of cells.
ghost use Rattle.std.specs.Prelude.{◌≡◌, [], map, length, replicate, IfOk, vec_len};
ghost use Rattle.cells.specs.Held.{cells_of};
ghost use Rattle.rows.specs.Held.{rows_of};
ghost use Rattle.rows.specs.Texts.{no_text, text_of};
ghost use Rattle.store.specs.Entries.{list_entry};
ghost use Rattle.store.specs.Held.{cells_held, rows_held, texts_held};

use super::Store;
use cells::cell::Cell;
use cells::list::CellList;
use lists::kinds::CellEntry;
use replies::identity::identity_of;
use replies::work::Work;
use rows::content::Content;
use rows::rows::Rows;
use std::alloc::{AllocError, Global};
use table::write::CONTENTS;

// A cell as a Cell List names it. No From: neither type is of this crate.
fn entry_of(cell: &Cell) -> CellEntry
    ensures { result ≡ list_entry cell.now }
{
    CellEntry {
        cell: identity_of(cell),
    }
}

fn entries_of(heap: Global, cells: &[Cell]) -> Result<Vec<CellEntry>, AllocError>
    ensures { IfOk result (λ v. v.items ≡ map list_entry cells.now) }
{
    cells.iter().map(|cell| entry_of(cell)).collect(heap)
}

// No message in any cell.
fn no_rows(heap: Global, cells: &[Cell]) -> Result<Vec<Rows>, AllocError>
    ensures rows { IfOk result (λ v. map rows_of v.items ≡ map (λ _. []) cells.now) }
    ensures len { IfOk result (λ v. vec_len v ≡ length cells.now) }
{
    let mut rows = Vec::with_capacity(heap, cells.len())?;
    rows.try_resize_with(cells.len(), || Rows::new(heap))?;
    Ok(rows)
}

// Nothing in any content. Made as the rows are: one function for both would take the making as a closure, and say of it what
// Rows::new and Content::new say.
fn new_contents(heap: Global) -> Result<Vec<Content>, AllocError>
    ensures { IfOk result (λ v. map text_of v.items ≡ replicate 32 no_text) }
{
    let mut contents = Vec::with_capacity(heap, CONTENTS)?;
    contents.try_resize_with(CONTENTS, || Content::new(heap))?;
    Ok(contents)
}

impl Store {
    // The list stays with the caller.
    pub fn new(heap: Global, list: &CellList) -> Result<Store, AllocError>
        ensures cells { IfOk result (λ s. cells_held s ≡ cells_of list.now) }
        ensures rows { IfOk result (λ s. rows_held s ≡ map (λ _. []) (cells_of list.now)) }
        ensures texts { IfOk result (λ s. texts_held s ≡ replicate 32 no_text) }
    {
        let cells = list.copy(heap)?;
        let entries = entries_of(heap, list.cells())?;
        let rows = no_rows(heap, list.cells())?;
        let contents = new_contents(heap)?;
        let work = Work::new(heap)?;
        Ok(Store {
            cells,
            entries,
            rows,
            contents,
            work,
        })
    }
}
