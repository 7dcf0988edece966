// Making a checked list, and reading a file into it.
ghost use Rattle.std.specs.Prelude.{◌≡◌, ◌<◌, ◌≤◌, false, length, is_ok, IfOk, if◌then◌else◌};
ghost use Rattle.cells.specs.File.{Apart, Distinct, built_in, cells_in, checked_file, identity_at, repeated};
ghost use Rattle.cells.specs.Held.{cells_of};

use super::CellList;
use crate::cell::Cell;
use crate::file::{BUILT_IN, CellFile, MOST_CELLS, check};
use bounded::list::Bounded;
use cbsp::refusal::Refusal;
use std::alloc::{AllocError, Global};

// Puts the cells of a file in place of what the list holds. By number: a file gives its cells by their
// numbers alone.
fn fill(cells: &mut Bounded<Cell, MOST_CELLS>, file: &CellFile<'_>)
    requires { repeated (identity_at file.now.octets.now) file.now.count ≡ false }
    ensures items { cells.new ≡ cells_in file.now.octets.now }
    ensures len { length cells.new ≡ file.now.count }
    ensures distinct { Distinct cells.new }
{
    cells.clear();
    for k in 0..file.count {
        cells.push_reserved(file.cell(k));
    }
}

impl CellList {
    // The list of the built-in file.
    pub fn new(heap: Global) -> Result<CellList, AllocError>
        ensures { IfOk result (λ list. cells_of list ≡ cells_in built_in) }
    {
        let mut cells = Bounded::new(heap)?;
        let file = CellFile {
            octets: &BUILT_IN,
            count: 2,
        };
        fill(&mut cells, &file);
        Ok(CellList { cells })
    }

    // The same cells, in memory of their own.
    pub fn copy(&self, heap: Global) -> Result<CellList, AllocError>
        ensures { IfOk result (λ list. cells_of list ≡ cells_of self.now) }
    {
        let mut cells = Bounded::new(heap)?;
        for cell in self.cells.as_slice() {
            cells.push_reserved(*cell);
        }
        Ok(CellList { cells })
    }

    // Takes the cells of a file, or refuses it and stays as it is.
    pub fn read(&mut self, file: &[u8]) -> Result<usize, Refusal>
        ensures answer { result ≡ checked_file file.now }
        ensures cells { cells_of self.new ≡ (if is_ok result then cells_in file.now else cells_of self.old) }
    {
        let count = check(file)?;
        let file = CellFile {
            octets: file,
            count,
        };
        fill(&mut self.cells, &file);
        Ok(count)
    }

    // The cells, by their numbers from 0: 1 to 64, and no identity twice.
    pub fn cells(&self) -> &[Cell]
        ensures value { result.now ≡ cells_of self.now }
        ensures some { 0 < length result.now }
        ensures few { length result.now ≤ 64 }
        ensures apart { Apart result.now }
    {
        self.cells.as_slice()
    }
}
