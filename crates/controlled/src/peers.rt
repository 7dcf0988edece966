// Messages at which other implementations stop, loop or misread: requests with the answer that the controller gives, and answers of a
// controller, which are read and written back to the same octets.
use crate::calls::announced;
use crate::tools::table;
use cbsp::framing::LONGEST;
use controller::state::Table;
use elements::faults::{Fault, Layer};
use messages::reading::read_message;
use site::drill::DrillSite;
use std::process::Abort;
use std::test::Fail;
use writing::writing::write_message;

// A WRITE-REPLACE with one page, up to its User Information Length.
const WRITE_HEAD: [u8; 29] = [
    0x01, 0x00, 0x00, 0x6c, 0x0e, 0x00, 0x32, 0x03, 0x10, 0x10, 0x04, 0x00, 0x01, 0x06, 0x12, 0x00,
    0x05, 0x02, 0x06, 0x00, 0x01, 0x07, 0x00, 0x00, 0x13, 0x01, 0x0c, 0x0f, 0x01,
];

// RESET with a Cell List for all cells that has an entry all the same.
const ALL_WITH_ENTRY: [u8; 10] = [0x10, 0x00, 0x00, 0x06, 0x04, 0x00, 0x03, 0x06, 0x00, 0x01];

// RESET with a Cell List of an unknown kind of entry.
const UNKNOWN_KIND: [u8; 10] = [0x10, 0x00, 0x00, 0x06, 0x04, 0x00, 0x03, 0x03, 0x00, 0x01];

const VALUE_INVALID: [u8; 6] = [0x15, 0x00, 0x00, 0x02, 0x0b, 0x01];

const KEEP_ALIVE_COMPLETE: [u8; 4] = [0x17, 0x00, 0x00, 0x00];

// WRITE-REPLACE COMPLETE with a Number of Broadcasts Completed List and no Cell List.
const REPLACED_WITH_COUNTS: [u8; 29] = [
    0x02, 0x00, 0x00, 0x19, 0x0e, 0x00, 0x32, 0x03, 0x10, 0x20, 0x02, 0x10, 0x10, 0x08, 0x00, 0x0b,
    0x02, 0x00, 0x01, 0x00, 0x05, 0x00, 0x00, 0x02, 0xff, 0xff, 0x01, 0x12, 0x00,
];

// FAILURE with a Failure List of one cell that is named by its CI.
const FAILURE_BY_CI: [u8; 13] = [
    0x14, 0x00, 0x00, 0x09, 0x09, 0x00, 0x04, 0x02, 0x00, 0x02, 0x0a, 0x16, 0x00,
];

// KILL COMPLETE without a Cell List.
const KILLED_WITHOUT_CELLS: [u8; 23] = [
    0x05, 0x00, 0x00, 0x13, 0x0e, 0x00, 0x32, 0x02, 0x10, 0x10, 0x08, 0x00, 0x08, 0x01, 0x01, 0x01,
    0x00, 0x01, 0x00, 0x02, 0x00, 0x12, 0x00,
];

// What a table that is announced says of a request: its answer's start, and the fault.
fn told(rt: &impl Abort, mut table: Table, octets: &[u8]) -> ([u8; 6], Option<Fault>) {
    let site = DrillSite::new();
    let mut marks = [7u8; 64];
    let mut space = [0u8; LONGEST];
    let link = announced(rt, &mut table);
    let answered = table.message(&site, &link, octets, &mut marks, &mut space);
    table.shut(link.into());
    let [a, b, c, d, e, f, ..] = space;
    ([a, b, c, d, e, f], answered.expect(rt, "answered").fault)
}

// Whether a request is answered with an ERROR INDICATION for a value, and that value's octet is told.
fn is_invalid_at(rt: &impl Abort, table: Table, octets: &[u8], place: usize) -> bool {
    let (answer, fault) = told(rt, table, octets);
    let fault = fault.expect(rt, "a fault");
    answer == VALUE_INVALID && fault.layer == Layer::Values && fault.place == place
}

// Whether octets are read as a message and written again as they are.
fn is_written_back(octets: &[u8]) -> bool {
    let mut space = [0u8; LONGEST];
    let Ok(message) = read_message(octets) else {
        return false;
    };
    match write_message(&mut space, message) {
        Ok(len) => space.get(..len) == Some(octets),
        Err(_) => false,
    }
}

// A WRITE-REPLACE whose one page has such a User Information Length.
fn write_of(used: u8) -> [u8; 112] {
    let mut octets = [0x2b; 112];
    for (place, octet) in octets.iter_mut().zip(WRITE_HEAD.iter()) {
        *place = *octet;
    }
    octets[29] = used;
    octets
}

// A page has 1 to 82 octets of information.
#[test]
fn user_information_is_at_most_82_octets(rt: HostRuntime) -> Result<(), Fail> {
    assert!(rt; is_invalid_at(&rt, table(rt.alloc())?, &write_of(0), 29));
    assert!(rt; is_invalid_at(&rt, table(rt.alloc())?, &write_of(83), 29));
    assert!(rt; is_invalid_at(&rt, table(rt.alloc())?, &write_of(255), 29));
    let (_, fault) = told(&rt, table(rt.alloc())?, &write_of(82));
    assert!(rt; fault.is_none());
    Ok(())
}

// A list of all cells has no entry, and an unknown kind of entry is a value.
#[test]
fn cell_lists_are_judged(rt: HostRuntime) -> Result<(), Fail> {
    assert!(rt; is_invalid_at(&rt, table(rt.alloc())?, &ALL_WITH_ENTRY, 5));
    assert!(rt; is_invalid_at(&rt, table(rt.alloc())?, &UNKNOWN_KIND, 7));
    assert!(rt; !is_written_back(&ALL_WITH_ENTRY));
    assert!(rt; !is_written_back(&UNKNOWN_KIND));
    Ok(())
}

// Each of the 38 keep-alive codes is answered, and written back as it was; the next one is no code.
#[test]
fn keep_alive_codes_above_20_are_kept(rt: HostRuntime) -> Result<(), Fail> {
    for code in 1..=38u8 {
        let octets = [0x16, 0x00, 0x00, 0x02, 0x18, code];
        let (answer, fault) = told(&rt, table(rt.alloc())?, &octets);
        assert_eq!(rt; &answer[..4], &KEEP_ALIVE_COMPLETE[..]);
        assert!(rt; fault.is_none());
        assert!(rt; is_written_back(&octets));
    }
    let octets = [0x16, 0x00, 0x00, 0x02, 0x18, 39];
    assert!(rt; is_invalid_at(&rt, table(rt.alloc())?, &octets, 5));
    Ok(())
}

// Lists that are there without others, and short entries, are read as the standard has them.
#[test]
fn answers_are_written_back(rt: HostRuntime) -> Result<(), Fail> {
    assert!(rt; is_written_back(&REPLACED_WITH_COUNTS));
    assert!(rt; is_written_back(&FAILURE_BY_CI));
    assert!(rt; is_written_back(&KILLED_WITHOUT_CELLS));
    Ok(())
}
