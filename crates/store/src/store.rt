// The cells of a table with their messages, the contents that these broadcast, and the memory in which requests are worked out.
ghost use Rattle.std.specs.Prelude.{◌≡◌, ◌≤◌, map, length, vec_len};
ghost use Rattle.cells.specs.Held.{cells_of};
ghost use Rattle.store.specs.Entries.{list_entry};

use cells::list::CellList;
use lists::kinds::CellEntry;
use replies::work::Work;
use rows::content::Content;
use rows::rows::Rows;

mod asked;
mod filling;
mod handling;
mod making;
mod serving;

// All memory is reserved when it is made. `entries` are the cells as a Cell List names them. Three lists of one length,
// not one of records, since cells, entries and rows are each lent as a slice.
#[derive(Drop)]
pub struct Store {
    cells: CellList,
    entries: Vec<CellEntry>,
    rows: Vec<Rows>,
    contents: Vec<Content>,
    work: Work,
    ghost named: { entries.items ≡ map list_entry (cells_of cells) },
    ghost few: { length (cells_of cells) ≤ 64 },
    ghost known: { vec_len rows ≡ length (cells_of cells) },
}
