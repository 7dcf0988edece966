// The memory in which a request is worked out, reserved when it is made, so that no request needs any.
use bounded::list::Bounded;
use lists::kinds::{CellEntry, CompletedEntry, FailedEntry};
use naming::list::MOST_NAMINGS;
use naming::naming::Naming;
use table::outcome::Outcome;

mod run;

// Three lists, not one of records: each entry of a reply stands in one of them, in order.
#[derive(Drop)]
pub struct Work {
    namings: Bounded<Naming, MOST_NAMINGS>,
    outcomes: Bounded<Outcome, MOST_NAMINGS>,
    begun: Bounded<CellEntry, MOST_NAMINGS>,
    completed: Bounded<CompletedEntry, MOST_NAMINGS>,
    failed: Bounded<FailedEntry, MOST_NAMINGS>,
}
