// Writes messages of every kind, a line of hexadecimal octets for each, for other readers of CBSP to be tried on.
#![tactic(auto)]

use std::io;

mod answers_given;
mod entries_given;
mod line;
mod pages_given;
mod requests_given;

fn main(rt: HostRuntime) -> io::Result<()> {
    requests_given::show_requests(&rt)?;
    answers_given::show_write_answers(&rt)?;
    answers_given::show_kill_answers(&rt)?;
    answers_given::show_status_answers(&rt)?;
    answers_given::show_indications(&rt)
}
