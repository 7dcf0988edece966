// Reads a recording of what a centre and a controller sent each other, and says what is in it.
#![tactic(auto)]

use cells::list::CellList;
use recordings::help::is_help_wanted;
use std::io;
use std::io::Read;

mod report;

const HELP: &str = "inspect: says what is in a recording of CBSP messages (3GPP TS 48.049)

usage: inspect < RECORDING

RECORDING is a cell file and any number of messages behind it, of a cell broadcast centre and of a controller.
A cell file is an octet n, an octet 4, n identities (LAC and CI, two octets each) and n capabilities (0, 1 or 3).
A line is written for each cell and each message, and below a message its elements, a line or more for each.
Of a faulty message the cause is told, with layer and place, and the octet there stands in brackets.
What cannot be read is said, with its offset from the start.";

fn main(rt: HostRuntime) -> io::Result<()> {
    if is_help_wanted(&rt)? {
        return rt.println(HELP);
    }
    let mut stream = Vec::new(rt.alloc());
    rt.stdin().read_to_end(&mut stream)?;
    let mut list = CellList::new(rt.alloc())?;
    report::show(&rt, &mut list, stream.as_slice())
}
