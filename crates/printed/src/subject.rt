// Which CBS message a message is about.
ghost use Rattle.std.specs.Prelude.{◌≡◌, Some, None};

use shown::element_lines::{Identifier, Serial};
use shown::lines::Lines;
use std::io;

// Its identifier and serial numbers, as far as they are told.
#[derive(Clone, Copy, PartialEq, Eq, Debug)]
pub struct Subject {
    pub identifier: Option<u16>,
    pub new_serial: Option<u16>,
    pub old_serial: Option<u16>,
}

impl Subject {
    // One that begins, in the place of an old one where there is one.
    pub fn beginning(identifier: u16, new_serial: u16, old_serial: Option<u16>) -> Subject
        ensures { result ≡ record { identifier = Some identifier; new_serial = Some new_serial; old_serial = old_serial } }
    {
        Subject {
            identifier: Some(identifier),
            new_serial: Some(new_serial),
            old_serial,
        }
    }

    // One that began before.
    pub fn begun(identifier: u16, serial: u16) -> Subject
        ensures { result ≡ record { identifier = Some identifier; new_serial = None; old_serial = Some serial } }
    {
        Subject {
            identifier: Some(identifier),
            new_serial: None,
            old_serial: Some(serial),
        }
    }

    pub fn show(&self, lines: &Lines<'_, impl Print>) -> io::Result<()> {
        lines.optional("Message Identifier", self.identifier.map(Identifier))?;
        lines.optional("New Serial Number", self.new_serial.map(Serial))?;
        lines.optional("Old Serial Number", self.old_serial.map(Serial))
    }
}
