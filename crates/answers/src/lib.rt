// The twelve answers and indications of the controller.
#![tactic(auto)]

pub mod answer;
pub mod laws;
pub mod layouts;
pub mod reading;
