// A line for a message: a name for the sample, and the octets that are written.
use cbsp::framing::LONGEST;
use messages::message::Message;
use shown::octets::Hex;
use std::io;
use writing::writing::write_message;

pub fn show(rt: &impl Print, name: &str, message: Message<'_>) -> io::Result<()> {
    // on the stack: the program takes no memory
    let mut space = [0u8; LONGEST];
    match write_message(&mut space, message) {
        Ok(length) => println!(rt; "{name}: {}", Hex(&space[..length])),
        Err(_) => println!(rt; "{name}: not written"),
    }
}
