// What the benchmark calls from C: messages read and written, the memory of a controller, and its calls over a site.
#![tactic(auto)]

mod codec;
mod making;
mod running;
mod sites;
mod sums;
