// The Broadcast Message Type: which messages RESTART and FAILURE mean.
ghost use Rattle.std.specs.Prelude.{◌≡◌, Some};
ghost use Rattle.cbsp.specs.Decoding.{decoded};
ghost use Rattle.elements.specs.Codes.{broadcast_code, broadcast_name, broadcast_of};

use cbsp::code::UnknownCode;
use std::fmt;

#[derive(Clone, Copy, PartialEq, Eq, Debug)]
pub enum BroadcastType {
    Ordinary = 0,
    Emergency = 1,
}

impl From<BroadcastType> for u8 {
    ghost from_gives = { λ v r. r ≡ broadcast_code v };

    fn from(broadcast: BroadcastType) -> u8 {
        broadcast as u8
    }
}

impl TryFrom<u8> for BroadcastType {
    type Error = UnknownCode;

    ghost try_from_gives = { λ o r. r ≡ decoded broadcast_of o };

    fn try_from(code: u8) -> Result<BroadcastType, UnknownCode> {
        match code {
            0 => Ok(BroadcastType::Ordinary),
            1 => Ok(BroadcastType::Emergency),
            _ => Err(UnknownCode(code)),
        }
    }
}

// Its name in the standard (3GPP TS 48.049, 8.2).
impl fmt::Display for BroadcastType {
    ghost output = { λ v. Some (broadcast_name v) };

    fn fmt<W: fmt::Write>(&self, f: &mut fmt::Formatter<W>) -> fmt::Result {
        f.write_str(match self {
            BroadcastType::Ordinary => "CBS message broadcasting",
            BroadcastType::Emergency => "emergency message broadcasting",
        })
    }
}
