// Reading, element by element.
ghost use Rattle.std.specs.Prelude.{◌≡◌, ◌+◌, ◌≤◌, length};
ghost use Rattle.elements.specs.Elements.{find as finds, ranged, read_coded, read_two};
ghost use Rattle.elements.specs.Reads.{Reads, octet_at};
ghost use Rattle.elements.specs.Whole.{ended};

use crate::coded::Coded;
use crate::faults::{ElementFault, Fault};
use cbsp::framing::HEADER;
use cbsp::octets::two_at;

// The octets of a message, and the place that reading has come to. After a fault that place means nothing. The
// place is kept, no rest of the octets: a fault tells it, counted from the message's start. No fact ties the
// place to the octets: elements are sought at any place, also past the end.
#[derive(Clone, Copy)]
pub struct Reader<'a> {
    pub octets: &'a [u8],
    pub at: usize,
}

impl<'a> Reader<'a> {
    // Behind the header of a message.
    pub fn new(octets: &'a [u8]) -> Reader<'a>
        ensures octets { result.octets ≡ octets.entry }
        ensures place { result.at ≡ 4 }
    {
        Reader { octets, at: HEADER }
    }

    // The place behind an identifier, nothing where the message ends or another identifier of the standard
    // stands there. An octet, no enum: each element brings its own as a const, and any other of 1 to 0x18 says
    // that it is not there.
    pub fn find(&self, id: u8) -> Result<Option<usize>, ElementFault>
        ensures { result ≡ finds id self.now.octets.now self.now.at }
    {
        let Some(octet) = self.octets.get(self.at) else {
            return Ok(None);
        };
        match *octet {
            o if o == id => Ok(Some(self.at + 1)),
            1..=0x18 => Ok(None),
            _ => Err(ElementFault::Unknown(self.at)),
        }
    }

    // The octet there, of an element that begins at `start`.
    pub fn octet(&self, start: usize) -> Result<u8, ElementFault>
        ensures { result ≡ octet_at start self.now.octets.now self.now.at }
    {
        let octet = self.octets.get(self.at).copied();
        octet.ok_or(ElementFault::RunsPast(start))
    }

    // How many octets are left.
    pub fn left(&self) -> usize
        requires { self.now.at ≤ length self.now.octets.now }
        ensures { result + self.now.at ≡ length self.now.octets.now }
    {
        self.octets.len() - self.at
    }

    // A number of two octets from `lo` to `hi`, of an element that begins at `start`. What is left is asked
    // before the octets: a number cut off is another fault than one out of range.
    pub fn number(&mut self, start: usize, lo: u16, hi: u16) -> Result<u16, ElementFault>
        requires { self.old.at ≤ length self.old.octets.now }
        ensures { Reads (λ n. n) self.old result self.new (read_two lo hi self.old.octets.now start self.old.at) }
    {
        if self.left() < 2 {
            return Err(ElementFault::RunsPast(start));
        }
        let number = two_at(self.octets, self.at);
        if !(lo..=hi).contains(&number) {
            return Err(ElementFault::OutOfRange(self.at));
        }
        self.at += 2;
        Ok(number)
    }

    // An octet from `lo` to `hi`, of an element that begins at `start`.
    pub fn octet_within(&mut self, start: usize, lo: u8, hi: u8) -> Result<u8, ElementFault>
        requires { self.old.at ≤ length self.old.octets.now }
        ensures { Reads (λ n. n) self.old result self.new (read_coded (ranged lo hi) self.old.octets.now start self.old.at) }
    {
        let value = self.octet(start)?;
        if !(lo..=hi).contains(&value) {
            return Err(ElementFault::OutOfRange(self.at));
        }
        self.at += 1;
        Ok(value)
    }

    // The value that an octet is the code of, of an element that begins at `start`.
    pub fn coded<C: Coded>(&mut self, start: usize) -> Result<C, ElementFault>
        requires { self.old.at ≤ length self.old.octets.now }
        ensures { Reads (λ v. v) self.old result self.new (read_coded C.Coded.decode self.old.octets.now start self.old.at) }
    {
        let octet = self.octet(start)?;
        let Ok(value) = C::try_from(octet) else {
            return Err(ElementFault::OutOfRange(self.at));
        };
        self.at += 1;
        Ok(value)
    }

    // Nothing may follow the last element.
    pub fn end(&self) -> Result<(), Fault>
        ensures { result ≡ ended self.now.octets.now (tt, self.now.at) }
    {
        if self.at < self.octets.len() {
            return Err(Fault::from(ElementFault::Unknown(self.at)));
        }
        Ok(())
    }
}
