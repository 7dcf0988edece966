// A kind of list entry: it states its width and its heading, and means an entry.
ghost use Rattle.std.specs.Prelude.{◌≡◌, ℕ, Bool, ◌<◌, false, length, Some, None, MatchResult};
ghost use Rattle.elements.specs.Writes.{Room, Writes};
ghost use Rattle.lists.specs.Entries.{Entry, Kind, Known, Sound, Stated, own_form, spell_entry};
ghost use Rattle.lists.specs.Forms.{form_code};

use crate::cell::CellIdentity;
use crate::form::Form;
use elements::writer::Writer;

// Which of the octets after an identity is out of range.
#[derive(Clone, Copy, PartialEq, Eq, Debug)]
pub struct Flaw {
    pub index: usize,
}

// Two ghost members, no record of both: the rules of a kind are read without what an entry means.
pub trait ListEntry: Sized {
    // How many octets an entry has after its identity.
    const TAIL: usize;

    // Whether the discriminator stands in the list's heading, or in each entry.
    const HEADED: bool;

    // How many entries a list has at most.
    const MOST: usize;

    ghost TAIL: { ℕ };

    ghost HEADED: { Bool };

    ghost MOST: { ℕ };

    ghost kind: { Kind };

    ghost meant: { Self → Entry };

    // Whether a discriminator may stand in such a list.
    fn takes(form: Form) -> bool
        ensures { result ≡ kind.forms (form_code form) };

    // The entry of an identity and the octets after it, or which of these is out of range.
    fn make(cell: CellIdentity, tail: &[u8]) -> Result<Self, Flaw>
        requires { length tail.now ≡ kind.tail }
        ensures { MatchResult result (λ e. (kind.flaw tail.now ≡ None) × (meant e ≡ record { cell = cell; tail = tail.now })) (λ f. (kind.flaw tail.now ≡ Some f.index) × (f.index < kind.tail)) };

    // Whom the entry names.
    fn identity(&self) -> CellIdentity
        ensures { result ≡ (meant self.now).cell };

    // Writes the octets after the identity.
    fn put_tail(&self, writer: &mut Writer<'_>)
        requires { Room (meant self.now).tail writer.old }
        ensures { Writes (meant self.now).tail writer.old writer.new };

    // The kind is what the constants say.
    ghost stated: { Stated kind TAIL HEADED MOST };

    // An entry of the kind has as many octets after its identity as the kind says, and none out of range.
    ghost sound: { (e : Self) → Sound kind (meant e) };

    // No other octet than the code of a discriminator may stand for one.
    ghost known: { Known kind };
}

// Writes an entry's own discriminator, where the heading has none.
fn put_form<E: ListEntry>(writer: &mut Writer<'_>, form: Form)
    requires { Room (own_form E.ListEntry.kind.headed (form_code form)) writer.old }
    ensures { Writes (own_form E.ListEntry.kind.headed (form_code form)) writer.old writer.new }
{
    if !E::HEADED {
        writer.put_octet(u8::from(form));
    }
}

// Writes an entry, with its own discriminator where the heading has none.
pub fn put_entry<E: ListEntry>(writer: &mut Writer<'_>, entry: &E)
    requires { Room (spell_entry E.ListEntry.kind (E.ListEntry.meant entry.now)) writer.old }
    ensures { Writes (spell_entry E.ListEntry.kind (E.ListEntry.meant entry.now)) writer.old writer.new }
{
    let cell = entry.identity();
    put_form::<E>(writer, cell.form());
    cell.put(writer);
    entry.put_tail(writer);
}
