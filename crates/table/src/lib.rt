// What a request does in the cells that it names.
#![tactic(auto)]

pub mod asked;
mod at_cell;
pub mod handling;
pub mod outcome;
mod pool;
pub mod references;
pub mod request;
pub mod storing;
pub mod write;
