// A checked list of cells.
ghost use Rattle.std.specs.Prelude.{◌<◌, length};
ghost use Rattle.cells.specs.File.{Distinct};

use crate::cell::Cell;
use crate::file::MOST_CELLS;
use bounded::list::Bounded;

mod reading;

// 1 to 64 cells, of which no two have the same identity.
#[derive(Drop)]
pub struct CellList {
    cells: Bounded<Cell, MOST_CELLS>,
    ghost some: { 0 < length cells },
    ghost distinct: { Distinct cells },
}
