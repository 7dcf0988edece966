// Whether entries can stand in a list, and in how many octets.
ghost use Rattle.std.specs.Prelude.{◌≡◌, ◌≤◌, length, IfSome};
ghost use Rattle.lists.specs.CellLists.{cells_meant};
ghost use Rattle.lists.specs.Entries.{entry_fits, spell_entry};
ghost use Rattle.lists.specs.Forms.{form_code};
ghost use Rattle.lists.specs.Listed.{listed};
ghost use Rattle.lists.specs.Measures.{cells_width, list_width};

use crate::cells::Cells;
use crate::entries::Entries;
use crate::entry::ListEntry;
use crate::form::Form;
use crate::writing::head_form;

// Whether a list with a discriminator in its heading can have an entry.
pub(crate) fn entry_fits<E: ListEntry>(entry: &E, form: Form) -> bool
    ensures { result ≡ entry_fits E.ListEntry.kind (form_code form) (E.ListEntry.meant entry.now) }
{
    let own = entry.identity().form();
    if E::HEADED && own != form {
        return false;
    }
    E::takes(own)
}

// How many octets an entry has.
pub(crate) fn entry_width<E: ListEntry>(entry: &E) -> usize
    ensures value { result ≡ length (spell_entry E.ListEntry.kind (E.ListEntry.meant entry.now)) }
    ensures small { result ≤ 255 }
{
    let width = entry.identity().width() + E::TAIL;
    if E::HEADED { width } else { width + 1 }
}

// How many octets a list has after its length, nothing where it is out of range. A for, no sum: it ends at the
// first entry that is out of range or one too many.
pub fn list_width<E: ListEntry + Copy>(entries: Entries<'_, E>) -> Option<usize>
    ensures value { result ≡ list_width E.ListEntry.kind (listed E.ListEntry.kind E.ListEntry.meant entries.entry) }
    ensures small { IfSome result (λ n. n ≤ 65026) }
{
    let form = head_form(entries)?;
    let mut total = if E::HEADED { 1 } else { 0 };
    let mut room = E::MOST;
    for entry in entries {
        room = room.checked_sub(1)?;
        if !entry_fits(&entry, form) {
            return None;
        }
        total += entry_width(&entry);
    }
    Some(total)
}

pub fn cells_width(cells: Cells<'_>) -> Option<usize>
    ensures value { result ≡ cells_width (cells_meant cells.entry) }
    ensures small { IfSome result (λ n. n ≤ 65026) }
{
    match cells {
        Cells::All => Some(1),
        Cells::Named(entries) => list_width(entries),
    }
}
