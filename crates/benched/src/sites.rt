// Runs over each kind of site.
use crate::running::{Round, Run};
use crate::sums::Sums;
use frame::frame_site::FrameSite;
use site::Site;
use site::drill::DrillSite;
use std::alloc::{AllocError, Global};

// The sums of so many rounds behind the messages of a recording.
fn run_over<S: Site + Drop>(
    heap: Global,
    site: S,
    recording: &[u8],
    round: Round<'_>,
    rounds: u32,
) -> Result<Sums, AllocError> {
    let mut run = Run::new(heap, site, recording)?;
    let sums = run.go(round, rounds);
    run.end();
    Ok(sums)
}

// To C: whether there was memory for the run, whose sums are then in their place.
fn told(made: Result<Sums, AllocError>, sums: &mut Sums) -> bool {
    match made {
        Ok(made) => {
            *sums = made;
            true
        }
        Err(_) => false,
    }
}

// A recording is a cell file and messages behind it; each round has messages, and periods after them.
#[unsafe(no_mangle)]
pub extern "C" fn bench_drill(
    heap: Global,
    recording: &[u8],
    messages: &[u8],
    periods: u32,
    rounds: u32,
    sums: &mut Sums,
) -> bool {
    let round = Round { messages, periods };
    let made = run_over(heap, DrillSite::new(), recording, round, rounds);
    told(made, sums)
}

// The same over a frame site that writes into that memory.
#[unsafe(no_mangle)]
pub extern "C" fn bench_frame(
    heap: Global,
    recording: &[u8],
    messages: &[u8],
    periods: u32,
    rounds: u32,
    memory: &mut [u8],
    sums: &mut Sums,
) -> bool {
    let round = Round { messages, periods };
    let made = run_over(heap, FrameSite::new(memory), recording, round, rounds);
    told(made, sums)
}

// The replies to messages behind those of a recording, one behind the other in `out`; how many octets they have.
#[unsafe(no_mangle)]
pub extern "C" fn bench_replies(
    heap: Global,
    recording: &[u8],
    messages: &[u8],
    out: &mut [u8],
) -> usize {
    match Run::new(heap, DrillSite::new(), recording) {
        Ok(mut run) => {
            let len = run.reply_all(messages, out);
            run.end();
            len
        }
        Err(_) => 0,
    }
}
