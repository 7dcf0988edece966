// Which cells the entries of a Cell List name, each at its first naming.
#![tactic(auto)]

pub mod list;
pub mod marks;
pub mod names;
pub mod naming;
mod walk;
