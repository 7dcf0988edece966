// What the elements of messages say, in lines for a reader, by the standard's names.
#![tactic(auto)]

pub mod content;
pub mod element_lines;
pub mod lines;
pub mod list_lines;
pub mod octets;
