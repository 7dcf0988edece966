// Tests of the calls of a table, whose octets are compared with worked ones.
#![tactic(auto)]

#[cfg(test)]
mod calls;
#[cfg(test)]
mod peers;
#[cfg(test)]
mod runs;
#[cfg(test)]
mod tools;
