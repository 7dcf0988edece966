// The messages of a cell and the contents that they broadcast, and how a cell's messages are offered to a site.
#![tactic(auto)]

pub mod content;
pub mod key;
pub mod row;
pub mod rows;
pub mod sweep;
