// How an entry of a list names cells.
ghost use Rattle.std.specs.Prelude.{◌≡◌, ◌<◌, ◌≤◌, length, IfOk};
ghost use Rattle.elements.specs.Reads.{Reads};
ghost use Rattle.elements.specs.Writes.{Room, Writes};
ghost use Rattle.lists.specs.Cells.{cell_octets, form_of, read_cell};
ghost use Rattle.lists.specs.Forms.{form_code, form_number};

use crate::form::Form;
use cbsp::octets::two_at;
use elements::faults::EntryFault;
use elements::reader::Reader;
use elements::writer::Writer;

// A cell by location area code (LAC) and cell identity (CI), cells by CI, the cells of a location area, or every cell.
#[derive(Clone, Copy, PartialEq, Eq, Debug)]
pub enum CellIdentity {
    LacCi(u16, u16),
    Ci(u16),
    Lac(u16),
    All,
}

impl CellIdentity {
    pub fn form(self) -> Form
        ensures { form_code result ≡ form_of self }
    {
        match self {
            CellIdentity::LacCi(_, _) => Form::LacCi,
            CellIdentity::Ci(_) => Form::Ci,
            CellIdentity::Lac(_) => Form::Lac,
            CellIdentity::All => Form::All,
        }
    }

    // How many octets stand for it.
    pub fn width(self) -> usize
        ensures value { result ≡ length (cell_octets self) }
        ensures small { result ≤ 4 }
    {
        self.form().width()
    }

    pub fn put(self, writer: &mut Writer<'_>)
        requires { Room (cell_octets self) writer.old }
        ensures { Writes (cell_octets self) writer.old writer.new }
    {
        match self {
            CellIdentity::LacCi(lac, ci) => {
                writer.put_two(lac);
                writer.put_two(ci);
            }
            CellIdentity::Ci(ci) => writer.put_two(ci),
            CellIdentity::Lac(lac) => writer.put_two(lac),
            CellIdentity::All => writer.put_octet(0),
        }
    }
}

// The identity at the reader's place; `broken` where the octets end before it does, and under no known
// discriminator. How much is left is asked before: then each arm says its octets by their places.
pub fn read_cell(
    reader: &mut Reader<'_>,
    form: Option<Form>,
    broken: EntryFault,
) -> Result<CellIdentity, EntryFault>
    requires { reader.old.at ≤ length reader.old.octets.now }
    ensures value { Reads (λ c. c) reader.old result reader.new (read_cell broken (form_number form) (length reader.old.octets.now) reader.old.octets.now reader.old.at) }
    ensures bound { IfOk result (λ _. (reader.old.at < reader.new.at) × (reader.new.at ≤ length reader.old.octets.now)) }
{
    let at = reader.at;
    let octets = reader.octets;
    let left = reader.left();
    let cell = match form {
        Some(Form::LacCi) if left >= 4 => CellIdentity::LacCi(
            two_at(octets, at),
            two_at(octets, at + 2),
        ),
        Some(Form::Ci) if left >= 2 => CellIdentity::Ci(two_at(octets, at)),
        Some(Form::Lac) if left >= 2 => CellIdentity::Lac(two_at(octets, at)),
        Some(Form::All) if left >= 1 && octets[at] == 0 => CellIdentity::All,
        Some(Form::All) if left >= 1 => return Err(EntryFault { place: at }),
        _ => return Err(broken),
    };
    reader.at += cell.width();
    Ok(cell)
}
