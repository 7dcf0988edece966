// The messages of a cell, the oldest first.
use crate::row::Row;
use bounded::list::Bounded;

mod edits;

// The most messages that stand in a cell.
pub const MOST_ROWS: usize = 8;

#[derive(Drop)]
pub struct Rows {
    rows: Bounded<Row, MOST_ROWS>,
}
