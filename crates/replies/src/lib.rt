// The lists of a reply, from what came of a request.
#![tactic(auto)]

mod collecting;
mod entries;
pub mod identity;
pub mod work;
