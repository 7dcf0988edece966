// What makes two messages of a cell the same: channel, message identifier, and the code of the serial number.
ghost use Rattle.std.specs.Prelude.{◌≡◌, ◌<◌, length, IfSome};
ghost use Rattle.rows.specs.Keys.{first_of, is_same, key_of, place_of};

use crate::row::Row;
use cbsp::channel::Channel;
use cbsp::serial::serial_code;

#[derive(Clone, Copy, PartialEq, Eq, Debug)]
pub struct Key {
    pub channel: Channel,
    pub identifier: u16,
    // the twelve most significant bits of a serial number
    pub code: u16,
}

impl Key {
    // Three arguments, no struct of them: a row, a request and what is asked each have them among others.
    pub fn new(channel: Channel, identifier: u16, serial: u16) -> Key
        ensures { result ≡ key_of channel identifier serial }
    {
        let code = serial_code(serial);
        Key {
            channel,
            identifier,
            code,
        }
    }

    pub fn is_of(self, row: &Row) -> bool
        ensures { result ≡ is_same self row.now }
    {
        Key::from(row) == self
    }
}

// The key that a message has.
impl From<&Row> for Key {
    ghost from_gives = { λ row key. key ≡ key_of row.now.channel row.now.identifier row.now.serial };

    fn from(row: &Row) -> Key {
        Key::new(row.channel, row.identifier, row.serial)
    }
}

// The place of the first message that is the same.
pub fn place_of(rows: &[Row], key: Key) -> Option<usize>
    ensures place { result ≡ place_of (is_same key) rows.now }
    ensures within { IfSome result (λ p. p < length rows.now) }
{
    rows.iter().position(|row| key.is_of(row))
}

// The first message that is the same.
pub fn first_of(rows: &[Row], key: Key) -> Option<Row>
    ensures { result ≡ first_of (is_same key) rows.now }
{
    rows.iter().find(|row| key.is_of(row)).copied()
}
