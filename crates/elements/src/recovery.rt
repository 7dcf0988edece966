// The Recovery Indication: whether the messages of the cells named are still there.
ghost use Rattle.std.specs.Prelude.{◌≡◌, Some};
ghost use Rattle.cbsp.specs.Decoding.{decoded};
ghost use Rattle.elements.specs.Codes.{recovery_code, recovery_name, recovery_of};

use cbsp::code::UnknownCode;
use std::fmt;

#[derive(Clone, Copy, PartialEq, Eq, Debug)]
pub enum Recovery {
    Available = 0,
    Lost = 1,
}

impl From<Recovery> for u8 {
    ghost from_gives = { λ v r. r ≡ recovery_code v };

    fn from(recovery: Recovery) -> u8 {
        recovery as u8
    }
}

impl TryFrom<u8> for Recovery {
    type Error = UnknownCode;

    ghost try_from_gives = { λ o r. r ≡ decoded recovery_of o };

    fn try_from(code: u8) -> Result<Recovery, UnknownCode> {
        match code {
            0 => Ok(Recovery::Available),
            1 => Ok(Recovery::Lost),
            _ => Err(UnknownCode(code)),
        }
    }
}

// Its name in the standard (3GPP TS 48.049, 8.2).
impl fmt::Display for Recovery {
    ghost output = { λ v. Some (recovery_name v) };

    fn fmt<W: fmt::Write>(&self, f: &mut fmt::Formatter<W>) -> fmt::Result {
        f.write_str(match self {
            Recovery::Available => "CBS/emergency message data available",
            Recovery::Lost => "CBS/emergency message data lost",
        })
    }
}
