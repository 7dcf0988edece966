// Elements that stand one behind the other.
ghost use Rattle.std.specs.Prelude.{◌≡◌, ℕ, ◌<◌, true, length, Option};
ghost use Rattle.elements.specs.Codec.{Codec, element, nothing, optional, seq};
ghost use Rattle.elements.specs.Octets.{mapped};
ghost use Rattle.elements.specs.Pairs.{both};
ghost use Rattle.elements.specs.Reads.{Reads};
ghost use Rattle.elements.specs.Writes.{Room, Writes, limit, limited};

use crate::element::Element;
use crate::faults::{Fault, missing};
use crate::reader::Reader;
use crate::writer::Writer;
use cbsp::framing::{HEADER, LONGEST};
use std::marker::PhantomData;

// The most octets that elements of a message have.
pub const MOST: usize = LONGEST - HEADER;

// The most octets that elements are counted to have, also where no message has them.
pub const MOST_COUNTED: usize = 65535;

// Like Element, but of a Codec, which reads identifiers too, and may find nothing.
pub trait Elements<'a> {
    type Value: Copy;

    ghost Meaning: { Type 0 };

    ghost meant: { Self.Value → Meaning };

    ghost codec: { Codec Meaning };

    fn read(reader: &mut Reader<'a>) -> Result<Self::Value, Fault>
        ensures { Reads meant reader.old result reader.new (codec.read reader.old.octets.now reader.old.at) };

    // How many octets a value has, nothing where it is out of range or has too many.
    fn width(value: Self::Value) -> Option<usize>
        ensures { result ≡ limited (codec.fits (meant value)) (codec.spell (meant value)) };

    // Writes a value.
    fn put(writer: &mut Writer<'_>, value: Self::Value)
        requires room { Room (codec.spell (meant value)) writer.old }
        requires few { length (codec.spell (meant value)) < 65536 }
        requires fits { codec.fits (meant value) ≡ true }
        ensures { Writes (codec.spell (meant value)) writer.old writer.new };
}

// As many octets, where two octets can count them.
pub fn limit(octets: usize) -> Option<usize>
    ensures { result ≡ limit octets }
{
    (octets <= MOST_COUNTED).then_some(octets)
}

// An element that must be there.
pub struct Must<E>(PhantomData<E>);

impl<'a, E: Element<'a>> Elements<'a> for Must<E> {
    type Value = E::Value;

    ghost Meaning = { E.Meaning };

    ghost meant = { E.meant };

    ghost codec = { element E.ID E.body };

    fn read(reader: &mut Reader<'a>) -> Result<E::Value, Fault> {
        let start = reader.at;
        let Some(body) = reader.find(E::ID)? else {
            return Err(missing(start));
        };
        reader.at = body;
        Ok(E::read(reader, start)?)
    }

    fn width(value: E::Value) -> Option<usize> {
        let body = E::width(value)?;
        limit(1 + body)
    }

    fn put(writer: &mut Writer<'_>, value: E::Value) {
        writer.put_octet(E::ID);
        E::put(writer, value);
    }
}

// An element that may be absent.
pub struct May<E>(PhantomData<E>);

impl<'a, E: Element<'a>> Elements<'a> for May<E> {
    type Value = Option<E::Value>;

    ghost Meaning = { Option E.Meaning };

    ghost meant = { mapped E.meant };

    ghost codec = { optional E.ID E.body };

    fn read(reader: &mut Reader<'a>) -> Result<Option<E::Value>, Fault> {
        let start = reader.at;
        let Some(body) = reader.find(E::ID)? else {
            return Ok(None);
        };
        reader.at = body;
        Ok(Some(E::read(reader, start)?))
    }

    fn width(value: Option<E::Value>) -> Option<usize> {
        // a match: the check does not state a method of a trait with a lifetime that is passed on
        match value {
            Some(given) => Must::<E>::width(given),
            None => Some(0),
        }
    }

    fn put(writer: &mut Writer<'_>, value: Option<E::Value>) {
        if let Some(given) = value {
            Must::<E>::put(writer, given);
        }
    }
}

impl<'a> Elements<'a> for () {
    type Value = ();

    ghost Meaning = { Unit {0} };

    ghost meant = { λ u. u };

    ghost codec = { nothing };

    fn read(_reader: &mut Reader<'a>) -> Result<(), Fault> {
        Ok(())
    }

    fn width(_value: ()) -> Option<usize> {
        Some(0)
    }

    fn put(_writer: &mut Writer<'_>, _value: ()) {}
}

impl<'a, A: Elements<'a>, B: Elements<'a>> Elements<'a> for (A, B) {
    type Value = (A::Value, B::Value);

    ghost Meaning = { A.Meaning × B.Meaning };

    ghost meant = { both A.meant B.meant };

    ghost codec = { seq A.codec B.codec };

    fn read(reader: &mut Reader<'a>) -> Result<(A::Value, B::Value), Fault> {
        let first = A::read(reader)?;
        let second = B::read(reader)?;
        Ok((first, second))
    }

    fn width(value: (A::Value, B::Value)) -> Option<usize> {
        let first = A::width(value.0)?;
        let second = B::width(value.1)?;
        limit(first + second)
    }

    fn put(writer: &mut Writer<'_>, value: (A::Value, B::Value)) {
        A::put(writer, value.0);
        B::put(writer, value.1);
    }
}
