// Messages of either side as lines for a reader: their elements, a line or more for each, or what is wrong with them.
#![tactic(auto)]

mod answer_lines;
mod fault_lines;
pub mod message_lines;
mod request_lines;
mod subject;
