// The five requests of the broadcast centre.
#![tactic(auto)]

pub mod laws;
pub mod layouts;
pub mod reading;
pub mod request;
