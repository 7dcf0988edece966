// The replies and indications of the controller, and writing them into the host's space.
#![tactic(auto)]

pub mod laws;
pub mod replying;
pub mod sending;
