// The cells that a controller serves, and the file that lists them.
#![tactic(auto)]

pub mod cell;
pub mod file;
pub mod list;
