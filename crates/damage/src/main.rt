// Random and damaged octets: whatever is read as a message is written again to the same octets.
#![tactic(auto)]

use std::io;
use std::io::Read;

mod damages;
mod numbers;
mod tally;
mod trials;

fn main(rt: HostRuntime) -> io::Result<()> {
    let mut stream = Vec::new(rt.alloc());
    rt.stdin().read_to_end(&mut stream)?;
    rt.println(trials::run(rt.alloc(), stream.as_slice())?)
}
