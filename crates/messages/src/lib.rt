// Every message: read from octets, with its header, and spelt.
#![tactic(auto)]

pub mod errors;
pub mod examples;
pub mod laws;
pub mod message;
pub mod reading;
