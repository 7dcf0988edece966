// What every part of the controller's end of CBSP shares: refusals, framing, message types, channels, keep-alive times,
// the codes of serial numbers and page parameters.
#![tactic(auto)]

pub mod channel;
pub mod code;
pub mod framing;
pub mod keep_alive;
pub mod limits;
pub mod message_type;
pub mod octets;
pub mod page;
pub mod refusal;
pub mod serial;
