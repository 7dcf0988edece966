// Requests and periods over a few cells, from the layers below the controller's calls.
#![tactic(auto)]

#[cfg(test)]
mod requests;
#[cfg(test)]
mod tools;
