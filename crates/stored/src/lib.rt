// Tests of a table's memory, whose replies are compared with worked octets.
#![tactic(auto)]

#[cfg(test)]
mod replies_sent;
