// The messages of one cell among those of all: what a call on one of them does is said of all, once for each
// call. One function for each: a generic one would take the call as a closure, of which its clauses would have
// to say what these say. The cell is a number below the rows of all: a struct of rows and number would be
// made anew in each step.
ghost use Rattle.std.specs.Prelude.{◌≡◌, ◌<◌, [], ◌∷◌, ◌++◌, map, length};
ghost use Rattle.rows.specs.Held.{rows_of};
ghost use Rattle.rows.specs.Keys.{first_of, is_same, without};
ghost use Rattle.table.specs.AtCell.{rows_at, with_rows};

use rows::key::Key;
use rows::row::Row;
use rows::rows::Rows;

pub(crate) fn rows_at(cells: &[Rows], cell: usize) -> &[Row]
    requires { cell < length cells.now }
    ensures { result.now ≡ rows_at cells.now cell }
{
    cells[cell].as_slice()
}

#[tactic(auto, using(crate::proofs::Places::moved, crate::proofs::Places::there))]
pub(crate) fn take_at(cells: &mut [Rows], cell: usize, key: Key) -> Option<Row>
    requires { cell < length cells.old }
    ensures value { result ≡ first_of (is_same key) (rows_at cells.old cell) }
    ensures after { map rows_of cells.new ≡ with_rows cells.old cell (without (is_same key) (rows_at cells.old cell)) }
{
    cells[cell].take(key)
}

#[tactic(auto, using(crate::proofs::Places::moved, crate::proofs::Places::there))]
pub(crate) fn clear_at(cells: &mut [Rows], cell: usize)
    requires { cell < length cells.old }
    ensures { map rows_of cells.new ≡ with_rows cells.old cell [] }
{
    cells[cell].clear();
}

#[tactic(auto, using(crate::proofs::Places::moved, crate::proofs::Places::there))]
pub(crate) fn push_at(cells: &mut [Rows], cell: usize, row: Row)
    requires there { cell < length cells.old }
    requires room { length (rows_at cells.old cell) < 8 }
    ensures { map rows_of cells.new ≡ with_rows cells.old cell (rows_at cells.old cell ++ row ∷ []) }
{
    cells[cell].push_reserved(row);
}
