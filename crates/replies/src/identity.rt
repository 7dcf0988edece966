// How a reply and a Cell List name a cell.
ghost use Rattle.std.specs.Prelude.{◌≡◌};
ghost use Rattle.replies.specs.Lists.{identity_of};

use cells::cell::Cell;
use lists::cell::CellIdentity;

// LAC and CI of a cell. No From: neither type is of this crate.
pub fn identity_of(cell: &Cell) -> CellIdentity
    ensures { result ≡ identity_of cell.now }
{
    let identity = cell.identity;
    CellIdentity::LacCi(identity.lac, identity.ci)
}
