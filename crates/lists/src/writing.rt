// Entries written, for every kind, from a view or from a slice.
ghost use Rattle.std.specs.Prelude.{◌≡◌, ◌<◌, length};
ghost use Rattle.elements.specs.Writes.{Room, Writes};
ghost use Rattle.lists.specs.CellLists.{cells_meant, cells_octets};
ghost use Rattle.lists.specs.Entries.{spell_entries};
ghost use Rattle.lists.specs.Forms.{form_number};
ghost use Rattle.lists.specs.Listed.{listed};
ghost use Rattle.lists.specs.Lists.{head_form, led_by, lengthed, list_octets};

use crate::cells::Cells;
use crate::entries::Entries;
use crate::entry::{ListEntry, put_entry};
use crate::form::Form;
use elements::writer::Writer;

// The discriminator of the first entry, nothing where there is none.
pub fn head_form<E: ListEntry + Copy>(entries: Entries<'_, E>) -> Option<Form>
    ensures { form_number result ≡ head_form (listed E.ListEntry.kind E.ListEntry.meant entries.entry) }
{
    let mut rest = entries;
    let first = rest.next()?;
    Some(first.identity().form())
}

// Writes the heading's discriminator, where the kind has one. Not one with put_form: a kind has its
// discriminator in one of the two places, and each has a definition of its own.
fn put_heading<E: ListEntry>(writer: &mut Writer<'_>, form: Option<Form>)
    requires { Room (led_by E.ListEntry.kind.headed (form_number form)) writer.old }
    ensures { Writes (led_by E.ListEntry.kind.headed (form_number form)) writer.old writer.new }
{
    if E::HEADED {
        // 0 for no form, as the definition spells a list without entries: such a list fits in no message
        writer.put_octet(form.map_or(0, u8::from));
    }
}

// Writes the entries in order.
fn put_entries<E: ListEntry + Copy>(writer: &mut Writer<'_>, entries: Entries<'_, E>)
    requires { Room (spell_entries E.ListEntry.kind (listed E.ListEntry.kind E.ListEntry.meant entries)) writer.old }
    ensures { Writes (spell_entries E.ListEntry.kind (listed E.ListEntry.kind E.ListEntry.meant entries.entry)) writer.old writer.new }
{
    for entry in entries {
        put_entry(writer, &entry);
    }
}

// Writes what follows a list's length.
fn put_listed<E: ListEntry + Copy>(writer: &mut Writer<'_>, entries: Entries<'_, E>)
    requires { Room (list_octets E.ListEntry.kind (listed E.ListEntry.kind E.ListEntry.meant entries)) writer.old }
    ensures { Writes (list_octets E.ListEntry.kind (listed E.ListEntry.kind E.ListEntry.meant entries.entry)) writer.old writer.new }
{
    put_heading::<E>(writer, head_form(entries));
    put_entries(writer, entries);
}

// Writes a list, its length after what it counts. The writer goes back for it, by its place: it has the whole
// space.
pub fn put_list<E: ListEntry + Copy>(writer: &mut Writer<'_>, entries: Entries<'_, E>)
    requires room { Room (lengthed (list_octets E.ListEntry.kind (listed E.ListEntry.kind E.ListEntry.meant entries))) writer.old }
    requires few { length (list_octets E.ListEntry.kind (listed E.ListEntry.kind E.ListEntry.meant entries)) < 65536 }
    ensures { Writes (lengthed (list_octets E.ListEntry.kind (listed E.ListEntry.kind E.ListEntry.meant entries.entry))) writer.old writer.new }
{
    let length_at = writer.at;
    writer.at += 2;
    put_listed(writer, entries);
    let end = writer.at;
    writer.at = length_at;
    writer.put_two((end - length_at - 2) as u16);
    writer.at = end;
}

// Writes what follows the identifier of a Cell List.
pub fn put_cells(writer: &mut Writer<'_>, cells: Cells<'_>)
    requires room { Room (lengthed (cells_octets (cells_meant cells))) writer.old }
    requires few { length (cells_octets (cells_meant cells)) < 65536 }
    ensures { Writes (lengthed (cells_octets (cells_meant cells.entry))) writer.old writer.new }
{
    match cells {
        Cells::All => {
            writer.put_two(1);
            writer.put_octet(u8::from(Form::All));
        }
        Cells::Named(entries) => put_list(writer, entries),
    }
}
