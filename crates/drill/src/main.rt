// Drills a controller: takes the messages of a centre, and writes what the controller sends.
#![tactic(auto)]

mod exercise;

use cbsp::framing::LONGEST;
use cells::list::CellList;
use controller::state::Table;
use exercise::Exercise;
use recordings::help::is_help_wanted;
use recordings::recording::{Parts, file_end};
use site::drill::DrillSite;
use std::io;
use std::io::Read;

const HELP: &str =
    "drill: answers the messages of a cell broadcast centre as the controller does (CBSP, 3GPP TS 48.049)

usage: drill < RECORDING

RECORDING is a cell file and any number of messages of a centre behind it.
What the controller sends is written as it is, octet by octet: a RESTART for all cells, then the answer to each message.
The drill is of a controller that is up: it has opened and announced once before, of which nothing is written, so
that the RESTART says that data is available. The site only counts; no period is made.
It ends at the end of the recording, at a message that is refused or cut off, and at once where the cell file is refused.";

fn main(rt: HostRuntime) -> io::Result<()> {
    if is_help_wanted(&rt)? {
        return rt.println(HELP);
    }
    let mut stream = Vec::new(rt.alloc());
    rt.stdin().read_to_end(&mut stream)?;
    let offset = file_end(stream.as_slice());
    let (file, rest) = stream.as_slice().split_at(offset);
    let mut list = CellList::new(rt.alloc())?;
    if list.read(file).is_err() {
        return Ok(());
    }
    let mut exercise = Exercise {
        rt: &rt,
        table: Table::new(rt.alloc(), &list)?,
        site: DrillSite::new(),
        space: [0; LONGEST],
    };
    exercise.run(Parts { offset, rest })
}
