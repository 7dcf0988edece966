// Lists in memory that is reserved when they are made.
#![tactic(auto)]

pub mod list;
#[cfg(test)]
mod tests;
