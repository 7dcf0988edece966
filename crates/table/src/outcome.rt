// What came of a request for a cell, or for an entry that names none.
ghost use Rattle.std.specs.Prelude.{◌≡◌};
ghost use Rattle.table.specs.Outcomes.{cause_of_no_cell, no_cell};

use elements::cause::Cause;
use lists::cell::CellIdentity;
use naming::naming::Naming;

// No Result: an old message may have ended although the request failed after it.
#[derive(Clone, Copy, PartialEq, Eq, Debug)]
pub struct Outcome {
    pub whom: Naming,
    // the count of the message that ended, or was asked for
    pub ended: Option<u64>,
    // why the request failed here
    pub cause: Option<Cause>,
}

fn cause_of_no_cell(identity: CellIdentity) -> Cause
    ensures { result ≡ cause_of_no_cell identity }
{
    match identity {
        CellIdentity::Lac(_) => Cause::LaiOrLacNotValid,
        CellIdentity::LacCi(_, _) | CellIdentity::Ci(_) | CellIdentity::All => {
            Cause::CellIdentityNotValid
        }
    }
}

impl Outcome {
    // Of an entry that names no cell.
    pub fn no_cell(identity: CellIdentity) -> Outcome
        ensures { result ≡ no_cell identity }
    {
        Outcome {
            whom: Naming::NoCell(identity),
            ended: None,
            cause: Some(cause_of_no_cell(identity)),
        }
    }
}
