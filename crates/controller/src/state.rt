// A table: its cells with their messages, and the state of its link.
ghost use Rattle.law.specs.Bound.{Bounded};
ghost use Rattle.store.specs.Held.{rows_held};

use store::store::Store;

mod checks;
pub mod linking;
mod making;
pub mod message;
mod period;
mod standing;
mod switching;

// The last KEEP-ALIVE: the seconds within which the next one comes, and the periods that were made before it.
#[derive(Clone, Copy, PartialEq, Eq, Debug)]
struct LastAlive {
    seconds: u8,
    since: u32,
}

// The messages of all cells, and how it stands with the link. All memory is reserved when it is made.
#[derive(Drop)]
pub struct Table {
    store: Store,
    // the openings made: the link of the last one is current
    openings: u16,
    announced: bool,
    // whether it was announced at any time
    ever: bool,
    periods: u32,
    alive: Option<LastAlive>,
    // no message went out in more periods than there were
    ghost bounded: { Bounded periods (rows_held store) },
}
