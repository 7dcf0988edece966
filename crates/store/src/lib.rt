// The messages and contents of a table: each request is answered from them.
#![tactic(auto)]

pub mod store;
