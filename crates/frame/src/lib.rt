// The frame site: one room for all cells, and memory of the host in which every broadcast is written.
#![tactic(auto)]

pub mod frame_site;
pub mod period;
mod record;
