// What the sites here keep of their cells: open or closed, and the broadcasts done on each channel.
ghost use Rattle.std.specs.Prelude.{◌≡◌};
ghost use Rattle.site.specs.CellStates.{open_at, count_at, Fresh, Turned, Raised};

use cbsp::channel::Channel;
use cbsp::limits::MOST_CELLS;

// The number of cells of a site.
pub const CELLS: usize = MOST_CELLS;

// At this count a cell declines further broadcasts on the channel.
pub const MOST: u64 = 0x1_0000_0000_0000;

// One cell: whether it is open, and its count on each channel.
#[derive(Clone, Copy, PartialEq, Eq, Debug)]
struct CellState {
    open: bool,
    basic: u64,
    extended: u64,
}

#[derive(Clone, Copy, PartialEq, Eq, Debug)]
pub struct CellStates {
    cells: [CellState; CELLS],
}

impl CellStates {
    // All open, nothing counted.
    pub fn new() -> CellStates
        ensures { Fresh result }
    {
        CellStates {
            cells: [CellState {
                open: true,
                basic: 0,
                extended: 0,
            }; CELLS],
        }
    }

    pub fn is_open(&self, cell: usize) -> bool
        ensures { result ≡ open_at self.now cell }
    {
        self.cells.get(cell).is_some_and(|state| state.open)
    }

    // The broadcasts done, 0 past the cells: none is done there, and the number says nothing else.
    pub fn count(&self, cell: usize, channel: Channel) -> u64
        ensures { result ≡ count_at self.now cell channel }
    {
        self.cells.get(cell).map_or(0, |state| match channel {
            Channel::Basic => state.basic,
            Channel::Extended => state.extended,
        })
    }

    // Opens or closes one cell.
    pub fn set_open(&mut self, cell: usize, open: bool)
        ensures { Turned cell «open» self.old self.new }
    {
        // by the index: after `get_mut` a proof knows no element of the array
        if cell < CELLS {
            self.cells[cell].open = open;
        }
    }

    // Counts one more broadcast, or answers false and changes nothing where the cell is not open or its count
    // is full. A bool, as Site::broadcast answers one: that a cell declines is no error. The match over the
    // channels stands in `count` too: there it reads the number, here it raises it in place.
    pub fn raise(&mut self, cell: usize, channel: Channel) -> bool
        ensures { Raised cell channel result self.old self.new }
    {
        if !self.is_open(cell) || self.count(cell, channel) >= MOST {
            return false;
        }
        // by the index: that the cell is open says that it is there
        let state = &mut self.cells[cell];
        match channel {
            Channel::Basic => state.basic += 1,
            Channel::Extended => state.extended += 1,
        }
        true
    }
}
