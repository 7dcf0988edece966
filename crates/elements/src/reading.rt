// The elements of a whole message, behind its header.
ghost use Rattle.elements.specs.Octets.{Told};
ghost use Rattle.elements.specs.Whole.{read_whole};

use crate::elements::Elements;
use crate::faults::Fault;
use crate::reader::Reader;

// What they are, with nothing behind the last one.
pub fn read_whole<'a, E: Elements<'a>>(octets: &'a [u8]) -> Result<E::Value, Fault>
    ensures { Told E.meant result (read_whole E.codec octets.now) }
{
    let mut reader = Reader::new(octets);
    let value = E::read(&mut reader)?;
    reader.end()?;
    Ok(value)
}
