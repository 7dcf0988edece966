// A cell: how the centre names it, and on which channels it can broadcast.
ghost use Rattle.std.specs.Prelude.{◌≡◌};
ghost use Rattle.cbsp.specs.Decoding.{decoded};
ghost use Rattle.cells.specs.Capabilities.{capability_code, capability_in};

use cbsp::code::UnknownCode;

// Location area code and cell identity.
#[derive(Clone, Copy, PartialEq, Eq, Debug)]
pub struct Identity {
    pub lac: u16,
    pub ci: u16,
}

#[derive(Clone, Copy, PartialEq, Eq, Debug)]
pub enum Capability {
    NoChannel = 0,
    BasicOnly = 1,
    BothChannels = 3,
}

impl From<Capability> for u8 {
    ghost from_gives = { λ v r. r ≡ capability_code v };

    fn from(capability: Capability) -> u8 {
        capability as u8
    }
}

impl TryFrom<u8> for Capability {
    type Error = UnknownCode;

    ghost try_from_gives = { λ o r. r ≡ decoded capability_in o };

    fn try_from(code: u8) -> Result<Capability, UnknownCode> {
        match code {
            0 => Ok(Capability::NoChannel),
            1 => Ok(Capability::BasicOnly),
            3 => Ok(Capability::BothChannels),
            _ => Err(UnknownCode(code)),
        }
    }
}

#[derive(Clone, Copy, PartialEq, Eq, Debug)]
pub struct Cell {
    pub identity: Identity,
    pub capability: Capability,
}
