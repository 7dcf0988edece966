// An element: its identifier, and what stands behind it.
ghost use Rattle.std.specs.Prelude.{◌≡◌, ℕ, ◌<◌, ◌≤◌, true, length};
ghost use Rattle.elements.specs.Codec.{Body};
ghost use Rattle.elements.specs.Reads.{Reads};
ghost use Rattle.elements.specs.Writes.{Room, Writes, limited};

use crate::faults::ElementFault;
use crate::reader::Reader;
use crate::writer::Writer;

// It has an identifier.
pub trait Identified {
    const ID: u8;

    ghost ID: { ℕ };
}

pub trait Element<'a>: Identified {
    type Value: Copy;

    // What a value means, and how that is coded.
    ghost Meaning: { Type 0 };

    ghost meant: { Self.Value → Meaning };

    ghost body: { Body Meaning };

    // What stands at the reader's place, of an element that begins at `start`. `start` stands apart: it is
    // where the element begins, and only a fault reads it.
    fn read(reader: &mut Reader<'a>, start: usize) -> Result<Self::Value, ElementFault>
        requires { reader.old.at ≤ length reader.old.octets.now }
        ensures { Reads meant reader.old result reader.new (body.read reader.old.octets.now start reader.old.at) };

    // How many octets a value has, nothing where it is out of range or has too many.
    fn width(value: Self::Value) -> Option<usize>
        ensures { result ≡ limited (body.fits (meant value)) (body.spell (meant value)) };

    // Writes a value.
    fn put(writer: &mut Writer<'_>, value: Self::Value)
        requires room { Room (body.spell (meant value)) writer.old }
        requires few { length (body.spell (meant value)) < 65536 }
        requires fits { body.fits (meant value) ≡ true }
        ensures { Writes (body.spell (meant value)) writer.old writer.new };
}
