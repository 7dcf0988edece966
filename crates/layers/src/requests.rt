// Each request over a Cell List. Each test begins alike and lists its calls in full, so that it can be read
// alone.
use crate::tools::{by_ci, key_of, two_cells, write_of};
use cbsp::channel::Channel;
use cells::list::CellList;
use elements::cause::Cause;
use lists::cells::Cells;
use lists::entries::Entries;
use replies::work::Work;
use site::drill::DrillSite;
use std::test::Fail;
use table::references::Kill;

// Cell 0 takes the message, cell 1 too; CI 9 names no cell, twice.
#[test]
fn a_message_begins_where_it_can(rt: HostRuntime) -> Result<(), Fail> {
    let heap = rt.alloc();
    let list = CellList::new(heap)?;
    let mut rows = two_cells(heap)?;
    let mut work = Work::new(heap)?;
    let site = DrillSite::new();
    let mut marks = [7u8; 64];
    let entries = [by_ci(1), by_ci(9), by_ci(2), by_ci(1), by_ci(9)];
    assert!(rt; rows.len() == list.cells().len());
    let mut write = write_of(Channel::Basic, 0x1010, None);
    let named = Cells::Named(Entries::Given(&entries));
    work.run(
        &mut write,
        rows.as_mut_slice(),
        list.cells(),
        &site,
        named,
        &mut marks,
    );
    assert_eq!(rt; work.begun().len(), 2);
    assert_eq!(rt; work.completed().len(), 0);
    assert!(rt; work.failed().len() == 2);
    assert_eq!(rt; work.failed()[0].cause, Cause::CellIdentityNotValid);
    Ok(())
}

// The ninth message of a cell fails, a replacement takes the place of the one it names, and a kill goes by code.
#[test]
fn a_cell_holds_eight(rt: HostRuntime) -> Result<(), Fail> {
    let heap = rt.alloc();
    let list = CellList::new(heap)?;
    let mut rows = two_cells(heap)?;
    let mut work = Work::new(heap)?;
    let site = DrillSite::new();
    let entries = [by_ci(1)];
    let named = Cells::Named(Entries::Given(&entries));
    for code in 0..9u16 {
        assert!(rt; rows.len() == list.cells().len());
        let mut marks = [0u8; 64];
        let mut write = write_of(Channel::Basic, code * 16, None);
        work.run(
            &mut write,
            rows.as_mut_slice(),
            list.cells(),
            &site,
            named,
            &mut marks,
        );
    }
    assert!(rt; work.failed().len() == 1);
    assert_eq!(rt; work.failed()[0].cause, Cause::CellMemoryExceeded);
    assert!(rt; rows.len() == list.cells().len());
    let mut marks = [9u8; 64];
    let mut replace = write_of(Channel::Basic, 0x0801, Some(0x001f));
    work.run(
        &mut replace,
        rows.as_mut_slice(),
        list.cells(),
        &site,
        named,
        &mut marks,
    );
    assert_eq!(rt; work.completed().len(), 1);
    assert_eq!(rt; work.begun().len(), 1);
    assert!(rt; rows.len() == list.cells().len());
    let mut kill = Kill {
        key: key_of(0x0803),
    };
    let both = [by_ci(1), by_ci(2)];
    let named = Cells::Named(Entries::Given(&both));
    work.run(
        &mut kill,
        rows.as_mut_slice(),
        list.cells(),
        &site,
        named,
        &mut marks,
    );
    assert_eq!(rt; work.completed().len(), 1);
    assert_eq!(rt; work.failed().len(), 1);
    Ok(())
}
