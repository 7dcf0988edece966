// The two channels of a cell on which messages are broadcast.
ghost use Rattle.std.specs.Prelude.{◌≡◌, Some};
ghost use Rattle.cbsp.specs.Channels.{channel_code, channel_name, channel_of};
ghost use Rattle.cbsp.specs.Decoding.{decoded};

use crate::code::UnknownCode;
use std::fmt;

#[derive(Clone, Copy, PartialEq, Eq, Debug)]
pub enum Channel {
    Basic = 0,
    Extended = 1,
}

impl From<Channel> for u8 {
    ghost from_gives = { λ v r. r ≡ channel_code v };

    fn from(channel: Channel) -> u8 {
        channel as u8
    }
}

impl TryFrom<u8> for Channel {
    type Error = UnknownCode;

    ghost try_from_gives = { λ o r. r ≡ decoded channel_of o };

    fn try_from(code: u8) -> Result<Channel, UnknownCode> {
        match code {
            0 => Ok(Channel::Basic),
            1 => Ok(Channel::Extended),
            _ => Err(UnknownCode(code)),
        }
    }
}

// Its name in the standard.
impl fmt::Display for Channel {
    ghost output = { λ v. Some (channel_name v) };

    fn fmt<W: fmt::Write>(&self, f: &mut fmt::Formatter<W>) -> fmt::Result {
        f.write_str(match self {
            Channel::Basic => "basic channel",
            Channel::Extended => "extended channel",
        })
    }
}
