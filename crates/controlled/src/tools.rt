// What the tests share: a world over the built-in cells, and a watcher that notes what it is told.
use cells::list::CellList;
use controller::links::held::HeldLinks;
use controller::state::Table;
use controller::world::run::Watcher;
use controller::world::{Report, World};
use site::drill::DrillSite;
use std::alloc::{AllocError, Global};

// The octets that were sent, one reply behind the other, and the last report.
#[derive(Drop)]
pub struct Log {
    pub octets: [u8; 256],
    pub len: usize,
    pub last: Report,
}

impl Log {
    pub fn new() -> Log {
        Log {
            octets: [0; 256],
            len: 0,
            last: Report::NoLink,
        }
    }

    pub fn sent(&self) -> &[u8] {
        self.octets.get(..self.len).unwrap_or(&[])
    }
}

impl Watcher for Log {
    fn tell(&mut self, report: Report, sent: &[u8]) {
        for octet in sent {
            if let Some(place) = self.octets.get_mut(self.len) {
                *place = *octet;
                self.len = self.len.saturating_add(1);
            }
        }
        self.last = report;
    }
}

pub fn table(heap: Global) -> Result<Table, AllocError> {
    let list = CellList::new(heap)?;
    Table::new(heap, &list)
}

pub fn world(heap: Global) -> Result<World<DrillSite>, AllocError> {
    let table = table(heap)?;
    let links = HeldLinks::new(heap, 8)?;
    Ok(World {
        table,
        site: DrillSite::new(),
        links,
    })
}

pub fn end(world: World<DrillSite>) {
    let World {
        table: _,
        site: _,
        links,
    } = world;
    links.end();
}
