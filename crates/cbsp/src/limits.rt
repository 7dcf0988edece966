// How much of what there may be.

// Cells of a controller.
pub const MOST_CELLS: usize = 64;

// Entries of a Cell List that a request brings.
pub const MOST_NAMED: usize = 128;

// Entries of a list that a reply brings: one for each cell, and one for each entry that named none.
pub const MOST_TOLD: usize = MOST_CELLS + MOST_NAMED;

// Pages of a message.
pub const MOST_PAGES: usize = 15;

// Octets of a page's content, the filling among them.
pub const PAGE_CONTENT: usize = 82;
