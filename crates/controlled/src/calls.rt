// Calls on a table without a world.
use crate::tools::table;
use cbsp::refusal::Refusal;
use controller::links::OpenLink;
use controller::state::Table;
use controller::state::linking::{Announced, NotAnnounced};
use elements::faults::Layer;
use site::drill::DrillSite;
use std::process::Abort;
use std::test::Fail;

// KEEP-ALIVE of one second, and one of a time that no code has.
const KEEP_ALIVE: [u8; 6] = [0x16, 0x00, 0x00, 0x02, 0x18, 0x01];

const UNKNOWN_TIME: [u8; 6] = [0x16, 0x00, 0x00, 0x02, 0x18, 0x27];

const ERROR_INDICATION: [u8; 6] = [0x15, 0x00, 0x00, 0x02, 0x0b, 0x01];

// Space of 2,047 octets is too small: the waiting link comes back.
#[test]
fn a_refused_announcing_gives_the_link_back(rt: HostRuntime) -> Result<(), Fail> {
    let mut table = table(rt.alloc())?;
    let mut small = [0u8; 2047];
    match table.open() {
        Ok(link) => match table.announce(link, &mut small) {
            Ok(Announced { link, len: _ }) => table.shut(link.into()),
            Err(NotAnnounced { refusal, link }) => {
                table.shut(link.into());
                assert_eq!(rt; refusal, Refusal::ReplySpaceTooSmall);
            }
        },
        Err(_) => {}
    }
    Ok(())
}

// A table that is announced, and its link.
pub fn announced(rt: &impl Abort, table: &mut Table) -> OpenLink {
    let mut space = [0u8; 2048];
    let link = table.open().expect(rt, "opened");
    match table.announce(link, &mut space) {
        Ok(Announced { link, len: _ }) => link,
        Err(NotAnnounced { refusal: _, link }) => {
            table.shut(link.into());
            panic!(rt; "announced")
        }
    }
}

// A time that no code has is a fault of the third layer at octet 5, and is no KEEP-ALIVE.
#[test]
fn a_fault_is_told(rt: HostRuntime) -> Result<(), Fail> {
    let mut table = table(rt.alloc())?;
    let site = DrillSite::new();
    let mut marks = [7u8; 64];
    let mut space = [0u8; 2048];
    let link = announced(&rt, &mut table);
    let answered = table
        .message(&site, &link, &UNKNOWN_TIME, &mut marks, &mut space)
        .expect(&rt, "answered");
    table.shut(link.into());
    let fault = answered.fault.expect(&rt, "a fault");
    assert_eq!(rt; fault.layer, Layer::Values);
    assert_eq!(rt; fault.place, 5);
    assert_eq!(rt; &space[..6], &ERROR_INDICATION[..]);
    assert_eq!(rt; marks[63], 0);
    Ok(())
}

// Three seconds are over in the second period of 1.883.
#[test]
fn the_next_keep_alive_is_overdue(rt: HostRuntime) -> Result<(), Fail> {
    let mut table = table(rt.alloc())?;
    let mut site = DrillSite::new();
    let mut marks = [7u8; 64];
    let mut space = [0u8; 2048];
    let link = announced(&rt, &mut table);
    let answered = table
        .message(&site, &link, &KEEP_ALIVE, &mut marks, &mut space)
        .expect(&rt, "answered");
    table.shut(link.into());
    assert_eq!(rt; answered.len, 4);
    table.period(&mut site).expect(&rt, "a period");
    assert!(rt; !table.is_overdue());
    table.period(&mut site).expect(&rt, "a period");
    assert!(rt; table.is_overdue());
    Ok(())
}
