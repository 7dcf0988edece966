// How many octet strings were read, and why the others were not.
use cbsp::framing::LONGEST;
use elements::faults::Layer;
use messages::message::{Message, Unread};
use messages::reading::read_message;
use std::fmt;
use writing::writing::write_message;

#[derive(Clone, Copy, Default)]
pub struct Tally {
    accepted: u64,
    written_back: u64,
    not_whole: u64,
    by_type: u64,
    by_elements: u64,
    by_values: u64,
}

// Whether a message is written to the octets that it was read from. The space is its own, as that of samples:
// here the octets are compared, there they are printed. Out of line: else it is cleared for each octet string,
// also where no message is read.
#[inline(never)]
fn is_written_back(message: Message<'_>, octets: &[u8]) -> bool {
    let mut space = [0u8; LONGEST];
    let length = write_message(&mut space, message);
    length.is_ok_and(|end| space.get(..end) == Some(octets))
}

impl Tally {
    pub fn count(&mut self, octets: &[u8]) {
        let counter = match read_message(octets) {
            Ok(message) => {
                let back = u64::from(is_written_back(message, octets));
                self.written_back = self.written_back.wrapping_add(back);
                &mut self.accepted
            }
            Err(Unread::Refused(_)) => &mut self.not_whole,
            Err(Unread::Faulty(fault)) => match fault.layer {
                Layer::Type => &mut self.by_type,
                Layer::Elements => &mut self.by_elements,
                Layer::Values => &mut self.by_values,
            },
        };
        *counter = counter.wrapping_add(1);
    }
}

impl fmt::Display for Tally {
    fn fmt<W: fmt::Write>(&self, f: &mut fmt::Formatter<W>) -> fmt::Result {
        writeln!(f, "accepted: {}", self.accepted)?;
        writeln!(
            f,
            "of these written again to the same octets: {}",
            self.written_back
        )?;
        writeln!(f, "not one whole message: {}", self.not_whole)?;
        writeln!(f, "faulty in layer 1: {}", self.by_type)?;
        writeln!(f, "faulty in layer 2: {}", self.by_elements)?;
        write!(f, "faulty in layer 3: {}", self.by_values)
    }
}
