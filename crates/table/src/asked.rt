// What WRITE-REPLACE asks in every cell.
use cbsp::channel::Channel;

#[derive(Clone, Copy, PartialEq, Eq, Debug)]
pub struct Asked {
    pub channel: Channel,
    pub identifier: u16,
    pub serial: u16,
    // the serial number of the message that is replaced
    pub old: Option<u16>,
    pub period: u16,
    // 0 for no bound, as the request's octets say it
    pub requested: u16,
}
