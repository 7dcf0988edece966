// List elements, handled once for every kind of entry.
#![tactic(auto)]

pub mod cell;
pub mod cells;
pub mod entries;
pub mod entry;
pub mod form;
pub mod iterate;
pub mod kinds;
pub mod laws;
pub mod list_elements;
pub mod measuring;
pub mod reading;
mod sizes;
pub mod writing;
