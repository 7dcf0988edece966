// What a host makes before its first call, and lets go again: C counts what it allocates.
use cells::list::CellList;
use controller::links::held::HeldLinks;
use controller::state::Table;
use std::alloc::{AllocError, Global};

// The cells of a file; those of the built-in file where it is refused.
pub(crate) fn list_of(heap: Global, file: &[u8]) -> Result<CellList, AllocError> {
    let mut list = CellList::new(heap)?;
    match list.read(file) {
        Ok(_) | Err(_) => Ok(list),
    }
}

pub(crate) fn table_of(heap: Global, file: &[u8]) -> Result<Table, AllocError> {
    let list = list_of(heap, file)?;
    Table::new(heap, &list)
}

// The number of cells of the list that was made, 0 where there was no memory.
#[unsafe(no_mangle)]
pub extern "C" fn bench_list(heap: Global, file: &[u8]) -> usize {
    list_of(heap, file).map_or(0, |list| list.cells().len())
}

// Whether there was memory for a list and a table.
#[unsafe(no_mangle)]
pub extern "C" fn bench_table(heap: Global, file: &[u8]) -> bool {
    table_of(heap, file).is_ok()
}

// Whether there was memory for the places of so many links.
#[unsafe(no_mangle)]
pub extern "C" fn bench_links(heap: Global, count: usize) -> bool {
    match HeldLinks::new(heap, count) {
        Ok(links) => {
            links.end();
            true
        }
        Err(_) => false,
    }
}
