// What came of an entry of a Cell List: a cell that was not named before, or an entry that names no cell.
// No Result: what came of a request is told of either, so that a cell is no success in it and an entry no error.
use lists::cell::CellIdentity;

#[derive(Clone, Copy, PartialEq, Eq, Debug)]
pub enum Naming {
    // a number: it is the place among the cells and among their messages, which are lent apart
    Cell(usize),
    NoCell(CellIdentity),
}
