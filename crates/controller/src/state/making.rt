// Making a table over a checked list of cells.
ghost use Rattle.std.specs.Prelude.{◌≡◌, IfOk};
ghost use Rattle.cells.specs.Held.{cells_of};
ghost use Rattle.law.specs.Runs.{FreshTable};
ghost use Rattle.controller.specs.Fresh.{fresh_state};
ghost use Rattle.controller.specs.Held.{state_of};

use super::Table;
use cells::list::CellList;
use std::alloc::{AllocError, Global};
use store::store::Store;

impl Table {
    // The list stays with the host. No call needs memory after this one.
    pub fn new(heap: Global, list: &CellList) -> Result<Table, AllocError>
        ensures state { IfOk result (λ t. state_of t ≡ fresh_state (cells_of list.now)) }
        ensures fresh { IfOk result (λ t. FreshTable (state_of t)) }
    {
        let store = Store::new(heap, list)?;
        Ok(Table {
            store,
            openings: 0,
            announced: false,
            ever: false,
            periods: 0,
            alive: None,
        })
    }
}
