// A message that stands in a cell.
use cbsp::channel::Channel;

#[derive(Clone, Copy, PartialEq, Eq, Debug)]
pub struct Row {
    pub channel: Channel,
    pub identifier: u16,
    pub serial: u16,
    // periods from one broadcast to the next
    pub period: u16,
    // broadcasts requested, 0 for no bound, as the request's octets say it
    pub requested: u16,
    // broadcasts done
    pub count: u64,
    // periods until it is due again
    pub wait: u16,
    // the slot of its content
    pub slot: u8,
}
