// The cells that one entry names.
ghost use Rattle.std.specs.Prelude.{◌≡◌};
ghost use Rattle.naming.specs.Names.{is_found, names_only_first};

use cells::cell::{Cell, Identity};
use lists::cell::CellIdentity;

// Whether a cell is one that the entry may mean. Each cell is asked: an entry may name many, and no map is
// needed for 64.
pub fn is_meant(entry: CellIdentity, cell: &Cell) -> bool
    ensures { result ≡ is_found entry cell.now }
{
    match entry {
        CellIdentity::LacCi(lac, ci) => cell.identity == Identity { lac, ci },
        CellIdentity::Ci(ci) => cell.identity.ci == ci,
        CellIdentity::Lac(lac) => cell.identity.lac == lac,
        CellIdentity::All => true,
    }
}

// Whether the entry names only the first of the cells that it may mean.
pub fn names_only_first(entry: CellIdentity) -> bool
    ensures { result ≡ names_only_first entry }
{
    match entry {
        CellIdentity::LacCi(_, _) | CellIdentity::Ci(_) => true,
        CellIdentity::Lac(_) | CellIdentity::All => false,
    }
}
