// Rehearses a script of calls on a controller, and writes what came of each.
#![tactic(auto)]

mod figures;
mod octets;
mod rehearsal;
mod script;
mod seen;
mod setting;
mod sums;
mod told;

use recordings::help::is_help_wanted;
use setting::Setting;
use std::io::Read;

const HELP: &str = "rehearse: carries out a script of calls on a controller (CBSP, 3GPP TS 48.049)

usage: rehearse < SCRIPT

Each line of the script is answered by its own words, a colon, and what came of it; lines below it that begin with two
spaces explain it. What follows a # is a comment. Octets are in hexadecimal, L is the number of an opening.

Before all else, if at all:
  cells OCTETS               the cells, by a cell file (else two cells of one location area)
  site drill | site frame    the site: one that only counts, or one with frame memory (else the first)
Calls:
  open                       a link, which waits
  announce L                 RESTART for all cells; the link is then open
  message L OCTETS           a message of the centre
  periods N                  so many periods of 1.883 seconds
  lose L CELL                the loss of a cell
  return L CELL available    its return, its messages there still
  return L CELL lost         its return, its messages lost
  shut L                     shuts the link
Questions:
  overdue                    whether the next KEEP-ALIVE is overdue
  figures                    of each cell and channel: the site's count, the sum that replies told, and what still stands;
                             excepted is a cell in which messages ended whose counts no reply told in full";

fn main(rt: HostRuntime) -> anyhow::Result<()> {
    if is_help_wanted(&rt)? {
        return Ok(rt.println(HELP)?);
    }
    let mut script = Vec::new(rt.alloc());
    rt.stdin().read_to_end(&mut script)?;
    let mut setting = Setting::new(rt.alloc())?;
    let begun = setting.read(&rt, script.as_slice())?;
    setting.rehearse(&rt, script.as_slice(), begun)
}
