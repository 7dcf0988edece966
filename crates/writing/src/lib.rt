// Messages written into lent space.
#![tactic(auto)]

pub mod unwritten;
pub mod writing;
