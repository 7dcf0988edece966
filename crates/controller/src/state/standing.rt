// The messages that stand in a cell.
ghost use Rattle.std.specs.Prelude.{◌≡◌};
ghost use Rattle.controller.specs.Held.{state_of};
ghost use Rattle.law.specs.State.{rows_at};

use super::Table;
use rows::row::Row;

impl Table {
    // The oldest first; none where the table has no such cell.
    pub fn messages(&self, cell: usize) -> &[Row]
        ensures { result.now ≡ rows_at (state_of self.now) cell }
    {
        self.store.messages(cell)
    }
}
