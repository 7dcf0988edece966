// The broadcast centre's book of the controller's cells, by definitions over the octets that the controller sent.
#![tactic(auto)]

pub mod examples;
