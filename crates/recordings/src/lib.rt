// What programs read: the standard input, a cell file and messages behind it, and a word that asks for help.
#![tactic(auto)]

pub mod help;
pub mod recording;
