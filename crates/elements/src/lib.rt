// Information elements: their faults, the codes of their values, how one is found, read and written.
#![tactic(auto)]

pub mod broadcast;
pub mod category;
pub mod cause;
pub mod coded;
pub mod element;
pub mod elements;
pub mod faults;
pub mod layout;
pub mod parts;
pub mod reader;
pub mod reading;
pub mod recovery;
pub mod tuples;
pub mod writer;
pub mod writing;
