// A table's memory over the built-in cells, and the octets of its replies.
use cbsp::channel::Channel;
use cells::list::CellList;
use lists::cell::CellIdentity;
use lists::cells::Cells;
use lists::entries::Entries;
use lists::kinds::CellEntry;
use requests::request::{Reference, Reset};
use site::drill::DrillSite;
use std::test::Fail;
use store::store::Store;

// Cause 02 in the cell with LAC 0101 and CI 1.
const KILL_FAILURE: [u8; 21] = [
    0x06, 0x00, 0x00, 0x11, 0x0e, 0x00, 0x32, 0x02, 0x10, 0x10, 0x09, 0x00, 0x06, 0x01, 0x01, 0x01,
    0x00, 0x01, 0x02, 0x12, 0x00,
];

// Both cells of LAC 0101.
const RESET_COMPLETE: [u8; 16] = [
    0x11, 0x00, 0x00, 0x0c, 0x04, 0x00, 0x09, 0x01, 0x01, 0x01, 0x00, 0x01, 0x01, 0x01, 0x00, 0x02,
];

// A message that nobody wrote is killed in the cell with CI 1.
#[test]
fn an_absent_message_is_not_killed(rt: HostRuntime) -> Result<(), Fail> {
    let heap = rt.alloc();
    let list = CellList::new(heap)?;
    let mut store = Store::new(heap, &list)?;
    let site = DrillSite::new();
    let mut marks = [7u8; 64];
    let mut space = [0u8; 2048];
    let named = [CellEntry {
        cell: CellIdentity::Ci(1),
    }];
    let request = Reference {
        identifier: 0x32,
        serial: 0x1010,
        cells: Cells::Named(Entries::Given(&named)),
        channel: Channel::Basic,
    };
    let length = store.kill(&site, request, &mut marks, &mut space);
    assert_eq!(rt; length, 21);
    let sent = &space[..21];
    let meant = &KILL_FAILURE[..];
    assert!(rt; sent == meant);
    assert_eq!(rt; marks[0], 0);
    Ok(())
}

// Every cell is reset, and one is emptied once more.
#[test]
fn every_cell_is_reset(rt: HostRuntime) -> Result<(), Fail> {
    let heap = rt.alloc();
    let list = CellList::new(heap)?;
    let mut store = Store::new(heap, &list)?;
    let site = DrillSite::new();
    let mut marks = [7u8; 64];
    let mut space = [0u8; 2048];
    let request = Reset { cells: Cells::All };
    let length = store.reset(&site, request, &mut marks, &mut space);
    assert_eq!(rt; length, 16);
    let sent = &space[..16];
    let meant = &RESET_COMPLETE[..];
    assert!(rt; sent == meant);
    store.empty(1);
    assert_eq!(rt; store.cells().len(), 2);
    assert_eq!(rt; store.entries().len(), 2);
    Ok(())
}

// A list and its copy hold the same cells.
#[test]
fn a_copy_has_the_same_cells(rt: HostRuntime) -> Result<(), Fail> {
    let heap = rt.alloc();
    let list = CellList::new(heap)?;
    let copy = list.copy(heap)?;
    assert_eq!(rt; copy.cells().len(), 2);
    assert!(rt; copy.cells() == list.cells());
    Ok(())
}
