// What the sent octets tell of counts: for each cell and channel the sum of the counts of messages that ended.
use answers::answer::{Answer, Done};
use cbsp::channel::Channel;
use cells::cell::Cell;
use cells::file::MOST_CELLS;
use elements::recovery::Recovery;
use lists::cell::CellIdentity;
use lists::cells::Cells;
use lists::kinds::{CompletedEntry, Info};
use messages::message::Message;
use messages::reading::read_message;

// The sums of a cell on the basic and the extended channel, and whether they leave something out: messages that were
// emptied with the cell, or a count that was marked overflow.
#[derive(Clone, Copy, PartialEq, Eq, Debug)]
pub struct CellSums {
    pub basic: u64,
    pub extended: u64,
    pub excepted: bool,
}

const NO_SUMS: CellSums = CellSums {
    basic: 0,
    extended: 0,
    excepted: false,
};

#[derive(Drop)]
pub struct Sums {
    pub cells: [CellSums; MOST_CELLS],
}

impl CellSums {
    pub fn on(self, channel: Channel) -> u64 {
        match channel {
            Channel::Basic => self.basic,
            Channel::Extended => self.extended,
        }
    }

    fn add(&mut self, channel: Channel, entry: CompletedEntry) {
        let count = u64::from(entry.count);
        match channel {
            Channel::Basic => self.basic = self.basic.saturating_add(count),
            Channel::Extended => self.extended = self.extended.saturating_add(count),
        }
        if entry.info == Info::Overflow {
            self.excepted = true;
        }
    }
}

fn is_named(cell: &Cell, identity: CellIdentity) -> bool {
    match identity {
        CellIdentity::LacCi(lac, ci) => cell.identity.lac == lac && cell.identity.ci == ci,
        _ => false,
    }
}

impl Sums {
    pub fn new() -> Sums {
        Sums {
            cells: [NO_SUMS; MOST_CELLS],
        }
    }

    // The sums of a cell by its number; none of a cell that is not there.
    pub fn of_cell(&self, cell: usize) -> CellSums {
        self.cells.get(cell).copied().unwrap_or(NO_SUMS)
    }

    // Takes note of what was sent. That an announcing says "lost" leaves nothing out: only a table without messages says so.
    pub fn note(&mut self, known: &[Cell], octets: &[u8], announcing: bool) {
        let Ok(Message::Answer(answer)) = read_message(octets) else {
            return;
        };
        match answer {
            Answer::WriteReplaceComplete(reply) => self.add_done(known, reply.done),
            Answer::WriteReplaceFailure(reply) => self.add_done(known, reply.done),
            Answer::KillComplete(reply) => self.add_done(known, reply.done),
            Answer::KillFailure(reply) => self.add_done(known, reply.done),
            Answer::ResetComplete(reply) => self.leave_out(known, reply.cells),
            Answer::ResetFailure(reply) => {
                if let Some(cells) = reply.cells {
                    self.leave_out(known, cells);
                }
            }
            Answer::Restart(restart) if restart.recovery == Recovery::Lost && !announcing => {
                self.leave_out(known, restart.cells)
            }
            _ => {}
        }
    }

    // The sums of a cell that is named as replies name it.
    fn of(&mut self, known: &[Cell], identity: CellIdentity) -> Option<&mut CellSums> {
        let number = known.iter().position(|cell| is_named(cell, identity))?;
        self.cells.get_mut(number)
    }

    fn add_done(&mut self, known: &[Cell], done: Done<'_>) {
        let (Some(channel), Some(entries)) = (done.channel, done.completed) else {
            return;
        };
        for entry in entries {
            if let Some(sums) = self.of(known, entry.cell) {
                sums.add(channel, entry);
            }
        }
    }

    fn leave_out(&mut self, known: &[Cell], named: Cells<'_>) {
        let Cells::Named(entries) = named else {
            return;
        };
        for entry in entries {
            if let Some(sums) = self.of(known, entry.cell) {
                sums.excepted = true;
            }
        }
    }
}
