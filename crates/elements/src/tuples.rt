// Three to five elements, one behind the other: as pairs of the first and the others. A macro can't write the ghost members
// of an impl, so each number has its own.
ghost use Rattle.elements.specs.Codec.{seq};

use crate::elements::Elements;
use crate::faults::Fault;
use crate::reader::Reader;
use crate::writer::Writer;

impl<'a, A: Elements<'a>, B: Elements<'a>, C: Elements<'a>> Elements<'a> for (A, B, C) {
    type Value = (A::Value, B::Value, C::Value);

    ghost Meaning = { A.Meaning × (B.Meaning × (C.Meaning)) };

    ghost meant = { λ v. (A.meant v.0, (B.meant v.1, C.meant v.2)) };

    ghost codec = { seq A.codec (seq B.codec C.codec) };

    fn read(reader: &mut Reader<'a>) -> Result<(A::Value, B::Value, C::Value), Fault> {
        let first = A::read(reader)?;
        let (b, c) = <(B, C)>::read(reader)?;
        Ok((first, b, c))
    }

    fn width(value: (A::Value, B::Value, C::Value)) -> Option<usize> {
        let (a, b, c) = value;
        <(A, (B, C))>::width((a, (b, c)))
    }

    fn put(writer: &mut Writer<'_>, value: (A::Value, B::Value, C::Value)) {
        let (a, b, c) = value;
        <(A, (B, C))>::put(writer, (a, (b, c)));
    }
}

impl<'a, A: Elements<'a>, B: Elements<'a>, C: Elements<'a>, D: Elements<'a>> Elements<'a>
    for (A, B, C, D) {
    type Value = (A::Value, B::Value, C::Value, D::Value);

    ghost Meaning = { A.Meaning × (B.Meaning × (C.Meaning × (D.Meaning))) };

    ghost meant = { λ v. (A.meant v.0, (B.meant v.1, (C.meant v.2, D.meant v.3))) };

    ghost codec = { seq A.codec (seq B.codec (seq C.codec D.codec)) };

    fn read(reader: &mut Reader<'a>) -> Result<(A::Value, B::Value, C::Value, D::Value), Fault> {
        let first = A::read(reader)?;
        let (b, c, d) = <(B, C, D)>::read(reader)?;
        Ok((first, b, c, d))
    }

    fn width(value: (A::Value, B::Value, C::Value, D::Value)) -> Option<usize> {
        let (a, b, c, d) = value;
        <(A, (B, C, D))>::width((a, (b, c, d)))
    }

    fn put(writer: &mut Writer<'_>, value: (A::Value, B::Value, C::Value, D::Value)) {
        let (a, b, c, d) = value;
        <(A, (B, C, D))>::put(writer, (a, (b, c, d)));
    }
}

impl<
    'a,
    A: Elements<'a>,
    B: Elements<'a>,
    C: Elements<'a>,
    D: Elements<'a>,
    E: Elements<'a>,
> Elements<'a> for (A, B, C, D, E) {
    type Value = (A::Value, B::Value, C::Value, D::Value, E::Value);

    ghost Meaning = { A.Meaning × (B.Meaning × (C.Meaning × (D.Meaning × (E.Meaning)))) };

    ghost meant = { λ v. (A.meant v.0, (B.meant v.1, (C.meant v.2, (D.meant v.3, E.meant v.4)))) };

    ghost codec = { seq A.codec (seq B.codec (seq C.codec (seq D.codec E.codec))) };

    fn read(
        reader: &mut Reader<'a>,
    ) -> Result<(A::Value, B::Value, C::Value, D::Value, E::Value), Fault> {
        let first = A::read(reader)?;
        let (b, c, d, e) = <(B, C, D, E)>::read(reader)?;
        Ok((first, b, c, d, e))
    }

    fn width(value: (A::Value, B::Value, C::Value, D::Value, E::Value)) -> Option<usize> {
        let (a, b, c, d, e) = value;
        <(A, (B, C, D, E))>::width((a, (b, c, d, e)))
    }

    fn put(writer: &mut Writer<'_>, value: (A::Value, B::Value, C::Value, D::Value, E::Value)) {
        let (a, b, c, d, e) = value;
        <(A, (B, C, D, E))>::put(writer, (a, (b, c, d, e)));
    }
}
