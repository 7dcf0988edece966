// A site over memory that the host lends: all cells share one room, and broadcasts are written into the memory.
ghost use Rattle.std.specs.Prelude.{◌≡◌, length};
ghost use Rattle.site.specs.Model.{New};
ghost use Rattle.frame.specs.Frame.{frame_model, frame_sound, Steps, memory_check};

use crate::record::{LONGEST, write_record};
use cbsp::channel::Channel;
use cbsp::refusal::Refusal;
use site::Site;
use site::cell_states::{CELLS, CellStates};
use site::message::CbsMessage;

// The broadcasts of a period, over all cells.
pub const CAPACITY: u16 = 16;

// The octets that the longest broadcasts of a period have together.
pub const MEMORY: usize = 16 * LONGEST;

// Room that all cells share, and memory of which the first octets are used in the period.
#[derive(Debug, Drop)]
pub struct FrameSite<'a> {
    cells: CellStates,
    left: u16,
    // beside the memory, which stays whole: each period begins at its front again
    used: usize,
    memory: &'a mut [u8],
}

// Whether a site can write its broadcasts into that memory. On fewer octets it only counts.
pub fn check_memory(memory: &[u8]) -> Result<(), Refusal>
    ensures { result ≡ memory_check (length memory.now) }
{
    if memory.len() < MEMORY {
        return Err(Refusal::FrameMemoryTooSmall);
    }
    Ok(())
}

impl<'a> FrameSite<'a> {
    pub fn new(memory: &'a mut [u8]) -> FrameSite<'a>
        ensures new { New (frame_model result) }
        ensures lender { result.memory.ghost_name ≡ memory.entry.ghost_name }
        ensures memory { result.memory.now ≡ memory.old }
        ensures front { result.used ≡ 0 }
    {
        FrameSite {
            cells: CellStates::new(),
            left: 0,
            used: 0,
            memory,
        }
    }
}

// is_open, count, close and open are one line each, as the drill site's: a trait's methods are not inherited
// from a field.
impl Site for FrameSite<'_> {
    ghost model = { frame_model };

    ghost sound = { frame_sound };

    ghost steps = { Steps };

    fn capacity(&self) -> u16 {
        CAPACITY
    }

    fn is_open(&self, cell: usize) -> bool {
        self.cells.is_open(cell)
    }

    // 0 past the cells: there is no room.
    fn room(&self, cell: usize) -> u16 {
        if cell < CELLS { self.left } else { 0 }
    }

    fn count(&self, cell: usize, channel: Channel) -> u64 {
        self.cells.count(cell, channel)
    }

    fn close(&mut self, cell: usize) {
        self.cells.set_open(cell, false);
    }

    fn open(&mut self, cell: usize) {
        self.cells.set_open(cell, true);
    }

    fn start_period(&mut self) {
        self.left = CAPACITY;
        self.used = 0;
    }

    fn broadcast(&mut self, cell: usize, channel: Channel, message: CbsMessage<'_>) -> bool {
        if self.room(cell) == 0 || !self.cells.raise(cell, channel) {
            return false;
        }
        self.left -= 1;
        if self.memory.len() >= MEMORY && self.used <= MEMORY - LONGEST {
            self.used += write_record(&mut self.memory[self.used..], cell as u8, channel, message);
        }
        true
    }
}
