// A list of the reply.
ghost use Rattle.std.specs.Prelude.{◌≡◌, ◌≤◌, length};
ghost use Rattle.replies.specs.Lists.{picked};

use crate::entries::OutcomeEntry;
use bounded::list::Bounded;
use cells::cell::Cell;
use table::outcome::Outcome;

// The entries of a list, in the order of the outcomes.
pub(crate) fn collect<E: OutcomeEntry + Drop, const N: usize>(
    cells: &[Cell],
    outcomes: &[Outcome],
    out: &mut Bounded<E, N>,
)
    requires { length outcomes.now ≤ N }
    ensures { out.new ≡ picked (E.OutcomeEntry.entry cells.now) outcomes.now }
{
    out.clear();
    // no `filter_map`: the check does not state a loop over one whose closure calls a method of a parameter
    for outcome in outcomes {
        if let Some(found) = E::of(cells, *outcome) {
            out.push_reserved(found);
        }
    }
}
