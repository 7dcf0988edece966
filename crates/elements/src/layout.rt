// A struct whose fields are elements, in their order.
ghost use Rattle.std.specs.Prelude.{◌≡◌, ℕ, List, Ok, Err};
ghost use Rattle.elements.specs.Codec.{Codec};
ghost use Rattle.elements.specs.declared.faults.Fault.{Fault as Flaw};

use crate::elements::Elements;
use crate::faults::Fault;
use crate::reader::Reader;
use crate::writer::Writer;
use std::marker::PhantomData;

pub trait Layout<'a>: Copy {
    type Parts: Elements<'a>;

    ghost Meaning: { Type 0 };

    ghost meant: { Self → Meaning };

    ghost codec: { Codec Meaning };

    // The struct of its fields: where these are read, it is.
    fn join(parts: <Self::Parts as Elements<'a>>::Value) -> Self
        ensures { (os : List ℕ) (at next : ℕ) → Self.Parts.codec.read os at ≡ Ok (Self.Parts.meant parts, next) → codec.read os at ≡ Ok (meant result, next) };

    // The fields, in their order: they are spelt as it is.
    fn parts(self) -> <Self::Parts as Elements<'a>>::Value
        ensures spelt { codec.spell (meant self) ≡ Self.Parts.codec.spell (Self.Parts.meant result) }
        ensures fits { codec.fits (meant self) ≡ Self.Parts.codec.fits (Self.Parts.meant result) };

    // It has the faults of its fields.
    ghost faulty: { (os : List ℕ) (at : ℕ) (f : Flaw) → Self.Parts.codec.read os at ≡ Err f → codec.read os at ≡ Err f };
}

// The fields P of such a struct L, one behind the other.
pub struct Fields<'a, P: Elements<'a>, L>(PhantomData<P::Value>, PhantomData<L>);

impl<'a, P: Elements<'a>, L: Layout<'a, Parts = P>> Elements<'a> for Fields<'a, P, L> {
    type Value = L;

    ghost Meaning = { L.Meaning };

    ghost meant = { L.meant };

    ghost codec = { L.codec };

    fn read(reader: &mut Reader<'a>) -> Result<L, Fault> {
        Ok(L::join(P::read(reader)?))
    }

    fn width(value: L) -> Option<usize> {
        P::width(value.parts())
    }

    fn put(writer: &mut Writer<'_>, value: L) {
        P::put(writer, value.parts());
    }
}
