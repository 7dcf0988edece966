// The law of runs: the centre's book, the table and the site's counts agree after every run of calls, and in every period what is due goes out.
#![tactic(auto)]

pub mod examples;
pub mod runs_are_lawful;
