// Why a message is not written.
#[derive(Clone, Copy, PartialEq, Eq, Debug)]
pub enum Unwritten {
    // A value is out of range, a list among them, or the message would have more than 2,048 octets.
    OutOfRange,
    // The space lent is too small.
    NoRoom,
}
