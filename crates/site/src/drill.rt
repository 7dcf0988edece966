// The drill site: it only counts, and has room for each cell apart.
ghost use Rattle.site.specs.Model.{New};
ghost use Rattle.site.specs.Drill.{DrillSteps, drill_model, drill_sound};

use crate::Site;
use crate::cell_states::{CELLS, CellStates};
use crate::message::CbsMessage;
use cbsp::channel::Channel;

// The room of each cell when a period starts.
pub const CAPACITY: u16 = 512;

#[derive(Clone, Copy, PartialEq, Eq, Debug)]
pub struct DrillSite {
    cells: CellStates,
    // not in the states: those are the frame site's too, whose cells have one room together
    rooms: [u16; CELLS],
}

impl DrillSite {
    pub fn new() -> DrillSite
        ensures { New (drill_model result) }
    {
        DrillSite {
            cells: CellStates::new(),
            rooms: [0; CELLS],
        }
    }
}

impl Site for DrillSite {
    ghost model = { drill_model };

    ghost sound = { drill_sound };

    ghost steps = { DrillSteps };

    fn capacity(&self) -> u16 {
        CAPACITY
    }

    fn is_open(&self, cell: usize) -> bool {
        self.cells.is_open(cell)
    }

    // 0 past the cells: there is no room.
    fn room(&self, cell: usize) -> u16 {
        self.rooms.get(cell).copied().unwrap_or(0)
    }

    fn count(&self, cell: usize, channel: Channel) -> u64 {
        self.cells.count(cell, channel)
    }

    fn close(&mut self, cell: usize) {
        self.cells.set_open(cell, false);
    }

    fn open(&mut self, cell: usize) {
        self.cells.set_open(cell, true);
    }

    fn start_period(&mut self) {
        self.rooms = [CAPACITY; CELLS];
    }

    fn broadcast(&mut self, cell: usize, channel: Channel, _message: CbsMessage<'_>) -> bool {
        if self.room(cell) == 0 || !self.cells.raise(cell, channel) {
            return false;
        }
        self.rooms[cell] -= 1;
        true
    }
}
