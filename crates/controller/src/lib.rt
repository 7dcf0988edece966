// The controller's end: a table, the links to it, and the calls of the host.
#![tactic(auto)]

pub mod links;
pub mod state;
pub mod world;
