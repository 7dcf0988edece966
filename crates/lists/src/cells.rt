// The cells that a Cell List names.
use crate::entries::Entries;
use crate::kinds::CellEntry;

// No Option: without entries it names all cells, and May<CellList> makes an Option of it.
#[derive(Clone, Copy)]
pub enum Cells<'a> {
    All,
    Named(Entries<'a, CellEntry>),
}
