// The cell file: how many cells, how wide an identity is, the identities, the capabilities.
ghost use Rattle.std.specs.Prelude.{◌≡◌, ◌+◌, ◌*◌, ◌<◌, ◌≤◌, false, length, IfOk};
ghost use Rattle.cells.specs.Capabilities.{capability_in};
ghost use Rattle.cells.specs.File.{Headed, any_unknown, capability_octet, cell_at, checked_file, headed, identity_at, repeated, stands_before};

use crate::cell::{Capability, Cell, Identity};
use cbsp::limits;
use cbsp::octets::two_at;
use cbsp::refusal::Refusal;

// The file of the list that a controller starts with: two cells of one location area.
pub const BUILT_IN: [u8; 12] = [2, 4, 1, 1, 0, 1, 1, 1, 0, 2, 1, 3];

// The most cells that a file lists.
pub const MOST_CELLS: usize = limits::MOST_CELLS;

// A file whose heading stands, and how many cells it lists.
#[derive(Drop)]
pub(crate) struct CellFile<'a> {
    pub(crate) octets: &'a [u8],
    // beside the octets, of which it is the first: the ghost fact is about both
    pub(crate) count: usize,
    ghost fits: { Headed octets.now count },
}

// The number of cells of a file that is taken, or why it is refused.
pub fn check(file: &[u8]) -> Result<usize, Refusal>
    ensures answer { result ≡ checked_file file.now }
    ensures fits { IfOk result (Headed file.now) }
    ensures apart { IfOk result (λ n. repeated (identity_at file.now) n ≡ false) }
{
    let count = heading(file)?;
    let file = CellFile {
        octets: file,
        count,
    };
    if file.has_repeated() {
        return Err(Refusal::IdentityTwice);
    }
    if file.has_unknown_capability() {
        return Err(Refusal::UnknownCapability);
    }
    Ok(count)
}

// The number of cells, once the heading stands and the file is as long as it says.
fn heading(file: &[u8]) -> Result<usize, Refusal>
    ensures value { result ≡ headed file.now }
    ensures fits { IfOk result (Headed file.now) }
{
    let [count, width, ..] = file else {
        return Err(Refusal::FileLength);
    };
    let count = usize::from(*count);
    if !(1..=MOST_CELLS).contains(&count) || *width != 4 {
        return Err(Refusal::FileHeading);
    }
    if file.len() != 2 + 5 * count {
        return Err(Refusal::FileLength);
    }
    Ok(count)
}

impl CellFile<'_> {
    fn identity(&self, k: usize) -> Identity
        requires { k < self.now.count }
        ensures { result ≡ identity_at self.now.octets.now k }
    {
        let lac = two_at(self.octets, 2 + 4 * k);
        let ci = two_at(self.octets, 4 + 4 * k);
        Identity { lac, ci }
    }

    // The capability of cell k, if its octet stands for one.
    fn capability(&self, k: usize) -> Option<Capability>
        requires { k < self.now.count }
        ensures { result ≡ capability_in (capability_octet self.now.octets.now k) }
    {
        Capability::try_from(self.octets[2 + 4 * self.count + k]).ok()
    }

    // Whether the identity of cell k is that of an earlier cell.
    fn stands_before(&self, k: usize) -> bool
        requires { k < self.now.count }
        ensures { result ≡ stands_before (identity_at self.now.octets.now) k }
    {
        let wanted = self.identity(k);
        (0..k).any(|i| self.identity(i) == wanted)
    }

    // Whether two identities of the file are the same.
    fn has_repeated(&self) -> bool
        ensures { result ≡ repeated (identity_at self.now.octets.now) self.now.count }
    {
        (0..self.count).any(|k| self.stands_before(k))
    }

    // Whether a capability octet of the file is unknown.
    fn has_unknown_capability(&self) -> bool
        ensures { result ≡ any_unknown self.now.octets.now self.now.count }
    {
        (0..self.count).any(|k| self.capability(k).is_none())
    }

    // Cell k, of a file that is taken. NoChannel never stands in for an octet there: each of them is known.
    pub(crate) fn cell(&self, k: usize) -> Cell
        requires { k < self.now.count }
        ensures { result ≡ cell_at self.now.octets.now k }
    {
        let identity = self.identity(k);
        let capability = self.capability(k).unwrap_or(Capability::NoChannel);
        Cell {
            identity,
            capability,
        }
    }
}
