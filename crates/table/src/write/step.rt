// The step in one cell.
ghost use Rattle.std.specs.Prelude.{◌≡◌, ◌<◌, [], ◌∷◌, ◌++◌, map, length, is_ok, if◌then◌else◌};
ghost use Rattle.std.specs.Option.{unwrap_or};
ghost use Rattle.rows.specs.Held.{rows_of};
ghost use Rattle.table.specs.AtCell.{rows_at, with_rows};
ghost use Rattle.table.specs.Pool.{PassedHoldNone};
ghost use Rattle.table.specs.Write.{blocked, row_of, slot_for, unless, write_acts};

use super::Write;
use super::parts::slot_for;
use crate::asked::Asked;
use crate::at_cell::{push_at, rows_at};
use crate::outcome::Outcome;
use crate::pool::Search;
use crate::request::CellRequest;
use cells::cell::Capability;
use elements::cause::Cause;
use naming::naming::Naming;
use rows::rows::Rows;

// Begins the new message, or says why not.
fn begin(
    asked: &Asked,
    rows: &mut [Rows],
    search: &mut Search,
    cell: usize,
    slot: &mut Option<u8>,
) -> Result<(), Cause>
    requires there { cell < length rows.old }
    requires passed { PassedHoldNone search.old.passed (map rows_of rows.old) }
    ensures answer { result ≡ unless (blocked asked.now (rows_at rows.old cell) (slot_for (map rows_of rows.old) slot.old)) tt }
    ensures rows { map rows_of rows.new ≡ (if is_ok result then with_rows rows.old cell (rows_at rows.old cell ++ row_of asked.now (unwrap_or (slot_for (map rows_of rows.old) slot.old) 0) ∷ []) else map rows_of rows.old) }
    ensures slot { slot.new ≡ (if is_ok result then slot_for (map rows_of rows.old) slot.old else slot.old) }
    ensures passed { PassedHoldNone search.new.passed (map rows_of rows.new) }
{
    asked.block(rows_at(rows, cell))?;
    let own = slot_for(rows, search, *slot).ok_or(Cause::BscMemoryExceeded)?;
    push_at(rows, cell, asked.row_of(own));
    search.restart(own);
    *slot = Some(own);
    Ok(())
}

impl CellRequest for Write {
    ghost acts = { write_acts };

    fn apply(
        &mut self,
        rows: &mut [Rows],
        search: &mut Search,
        cell: usize,
        capability: Capability,
        opened: bool,
    ) -> Outcome {
        let whom = Naming::Cell(cell);
        if let Err(cause) = self.asked.bar(capability, opened, rows_at(rows, cell)) {
            return Outcome {
                whom,
                ended: None,
                cause: Some(cause),
            };
        }
        let ended = self.asked.end_old(rows, cell);
        let cause = begin(&self.asked, rows, search, cell, &mut self.slot).err();
        Outcome { whom, ended, cause }
    }
}
