// The cells that a Cell List names.
ghost use Rattle.std.specs.Prelude.{◌≡◌, ◌≤◌, length, replicate};
ghost use Rattle.cells.specs.File.{Apart};
ghost use Rattle.lists.specs.CellLists.{cells_meant};
ghost use Rattle.naming.specs.Namings.{Sound, named_by, namings};

use crate::marks::Marks;
use crate::naming::Naming;
use crate::walk::Walk;
use bounded::list::Bounded;
use cbsp::limits::MOST_TOLD;
use cells::cell::Cell;
use cells::file::MOST_CELLS;
use lists::cells::Cells;

// The most that comes of a list: 64 cells, and 128 entries that name none.
pub const MOST_NAMINGS: usize = MOST_TOLD;

// What comes of a Cell List goes to `out`; the marks are clear on each way out. Each function on the way says
// so, since the octets are the host's: no type here holds them longer than a call. Each asks also that no two
// cells have the same identity, as in a checked list, and that the list names at most 128: entries in a slice
// may be more, and only a list that was read has a bound.
pub fn name_cells(
    cells: &[Cell],
    list: Cells<'_>,
    octets: &mut [u8; MOST_CELLS],
    out: &mut Bounded<Naming, MOST_NAMINGS>,
)
    requires apart { Apart cells.now }
    requires few { length (named_by (cells_meant list)) ≤ 128 }
    ensures namings { out.new ≡ namings cells.now (named_by (cells_meant list.entry)) }
    ensures clear { octets.new ≡ replicate 64 0 }
{
    out.clear();
    octets.fill(0);
    let marks = Marks { octets };
    let mut walk = Walk {
        marks: &mut *marks.octets,
        out: &mut *out,
        next: 0,
    };
    walk.enter_list(cells, list);
}

// Whatever a list is: the cells that come of it are there, and no cell comes twice.
pub fn namings_are_sound()
    ensures { Sound }
{}
