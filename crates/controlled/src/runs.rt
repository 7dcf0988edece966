// Runs of calls over the built-in cells and a drill site.
use crate::tools::{Log, end, world};
use cbsp::refusal::Refusal;
use controller::world::{Call, Report};
use elements::recovery::Recovery;
use std::test::Fail;

const RESET: [u8; 8] = [0x10, 0x00, 0x00, 0x04, 0x04, 0x00, 0x01, 0x06];

// RESTART for both cells, their messages lost.
const RESTART_LOST: [u8; 20] = [
    0x13, 0x00, 0x00, 0x10, 0x04, 0x00, 0x09, 0x01, 0x01, 0x01, 0x00, 0x01, 0x01, 0x01, 0x00, 0x02,
    0x16, 0x00, 0x0d, 0x01,
];

// RESTART for both cells, their messages available, and RESET COMPLETE for both.
const RESTART_AND_RESET: [u8; 36] = [
    0x13, 0x00, 0x00, 0x10, 0x04, 0x00, 0x09, 0x01, 0x01, 0x01, 0x00, 0x01, 0x01, 0x01, 0x00, 0x02,
    0x16, 0x00, 0x0d, 0x00, 0x11, 0x00, 0x00, 0x0c, 0x04, 0x00, 0x09, 0x01, 0x01, 0x01, 0x00, 0x01,
    0x01, 0x01, 0x00, 0x02,
];

// FAILURE for the cell with CI 2, and RESTART for it.
const LOST_AND_BACK: [u8; 31] = [
    0x14, 0x00, 0x00, 0x0b, 0x09, 0x00, 0x06, 0x01, 0x01, 0x01, 0x00, 0x02, 0x0a, 0x16, 0x00, 0x13,
    0x00, 0x00, 0x0c, 0x04, 0x00, 0x05, 0x01, 0x01, 0x01, 0x00, 0x02, 0x16, 0x00, 0x0d, 0x00,
];

// A WRITE-REPLACE for all cells, up to its one page.
const WRITE_HEAD: [u8; 30] = [
    0x01, 0x00, 0x00, 0x6c, 0x0e, 0x00, 0x32, 0x03, 0x10, 0x10, 0x04, 0x00, 0x01, 0x06, 0x12, 0x00,
    0x05, 0x02, 0x06, 0x00, 0x01, 0x07, 0x00, 0x00, 0x13, 0x01, 0x0c, 0x0f, 0x01, 0x1c,
];

// A KILL of that message in the cell with CI 1, and KILL COMPLETE after two broadcasts.
const KILL: [u8; 18] = [
    0x04, 0x00, 0x00, 0x0e, 0x0e, 0x00, 0x32, 0x02, 0x10, 0x10, 0x04, 0x00, 0x03, 0x02, 0x00, 0x01,
    0x12, 0x00,
];

const KILL_COMPLETE: [u8; 23] = [
    0x05, 0x00, 0x00, 0x13, 0x0e, 0x00, 0x32, 0x02, 0x10, 0x10, 0x08, 0x00, 0x08, 0x01, 0x01, 0x01,
    0x00, 0x01, 0x00, 0x02, 0x00, 0x12, 0x00,
];

// A WRITE-REPLACE of one page.
fn write_one() -> [u8; 112] {
    let mut octets = [0x2b; 112];
    for (place, octet) in octets.iter_mut().zip(WRITE_HEAD.iter()) {
        *place = *octet;
    }
    octets
}

fn over(link: u16, octets: &[u8]) -> Call<'_> {
    Call::Message { link, octets }
}

// The first announcing says that the messages are lost, a later one that they are there.
#[test]
fn a_table_is_announced_twice(rt: HostRuntime) -> Result<(), Fail> {
    let mut world = world(rt.alloc())?;
    let mut marks = [7u8; 64];
    let mut space = [0u8; 2048];
    let mut first = Log::new();
    let calls = [Call::Open, Call::Announce { link: 1 }];
    world.run(&calls, &mut marks, &mut space, &mut first);
    let mut second = Log::new();
    let calls = [Call::Open, Call::Announce { link: 2 }, over(2, &RESET)];
    world.run(&calls, &mut marks, &mut space, &mut second);
    end(world);
    assert_eq!(rt; first.sent(), &RESTART_LOST[..]);
    assert_eq!(rt; second.sent(), &RESTART_AND_RESET[..]);
    assert_eq!(rt; marks[0], 0);
    Ok(())
}

// A message goes out once in each period, and the reply to its KILL says how often.
#[test]
fn a_message_goes_out_until_it_is_killed(rt: HostRuntime) -> Result<(), Fail> {
    let mut world = world(rt.alloc())?;
    let mut marks = [7u8; 64];
    let mut space = [0u8; 2048];
    let mut log = Log::new();
    let write = write_one();
    let calls = [
        Call::Open,
        Call::Announce { link: 1 },
        over(1, &write),
        Call::Period,
        Call::Period,
    ];
    world.run(&calls, &mut marks, &mut space, &mut log);
    let mut killed = Log::new();
    world.run(&[over(1, &KILL)], &mut marks, &mut space, &mut killed);
    end(world);
    assert_eq!(rt; killed.sent(), &KILL_COMPLETE[..]);
    Ok(())
}

// A cell that was lost returns, and cannot be lost twice.
#[test]
fn a_cell_is_lost_and_returns(rt: HostRuntime) -> Result<(), Fail> {
    let mut world = world(rt.alloc())?;
    let mut marks = [7u8; 64];
    let mut space = [0u8; 2048];
    let mut opened = Log::new();
    let calls = [Call::Open, Call::Announce { link: 1 }];
    world.run(&calls, &mut marks, &mut space, &mut opened);
    let mut log = Log::new();
    let lose = Call::Lose { link: 1, cell: 1 };
    let restore = Call::Restore {
        link: 1,
        cell: 1,
        recovery: Recovery::Available,
    };
    world.run(&[lose, restore, restore], &mut marks, &mut space, &mut log);
    end(world);
    assert_eq!(rt; log.sent(), &LOST_AND_BACK[..]);
    assert_eq!(rt; log.last, Report::Refused(Refusal::CellAlreadySo));
    Ok(())
}

// A waiting link takes no message, a stale one is refused, and one that was shut is gone.
#[test]
fn links_come_and_go(rt: HostRuntime) -> Result<(), Fail> {
    let mut world = world(rt.alloc())?;
    let mut marks = [7u8; 64];
    let mut space = [0u8; 2048];
    let mut waiting = Log::new();
    world.run(
        &[Call::Open, over(1, &RESET)],
        &mut marks,
        &mut space,
        &mut waiting,
    );
    let mut stale = Log::new();
    let calls = [Call::Announce { link: 1 }, Call::Open, over(1, &RESET)];
    world.run(&calls, &mut marks, &mut space, &mut stale);
    let mut shut = Log::new();
    let calls = [Call::Shut { link: 1 }, over(1, &RESET)];
    world.run(&calls, &mut marks, &mut space, &mut shut);
    end(world);
    assert_eq!(rt; waiting.last, Report::NoLink);
    assert_eq!(rt; stale.last, Report::Refused(Refusal::LinkNotCurrent));
    assert_eq!(rt; shut.last, Report::NoLink);
    Ok(())
}
