// The causes of a Cause element and of the entries of a Failure List.
ghost use Rattle.std.specs.Prelude.{◌≡◌, Some};
ghost use Rattle.cbsp.specs.Decoding.{decoded};
ghost use Rattle.elements.specs.Codes.{cause_code, cause_name, cause_of};

use cbsp::code::UnknownCode;
use std::fmt;

#[derive(Clone, Copy, PartialEq, Eq, Debug)]
pub enum Cause {
    ParameterNotRecognised = 0x00,
    ParameterValueInvalid = 0x01,
    MessageReferenceNotIdentified = 0x02,
    CellIdentityNotValid = 0x03,
    UnrecognisedMessage = 0x04,
    MissingMandatoryElement = 0x05,
    BscCapacityExceeded = 0x06,
    CellMemoryExceeded = 0x07,
    BscMemoryExceeded = 0x08,
    CellBroadcastNotSupported = 0x09,
    CellBroadcastNotOperational = 0x0a,
    IncompatibleDrxParameter = 0x0b,
    ExtendedChannelNotSupported = 0x0c,
    MessageReferenceAlreadyUsed = 0x0d,
    UnspecifiedError = 0x0e,
    LaiOrLacNotValid = 0x0f,
}

impl From<Cause> for u8 {
    ghost from_gives = { λ v r. r ≡ cause_code v };

    fn from(cause: Cause) -> u8 {
        cause as u8
    }
}

impl TryFrom<u8> for Cause {
    type Error = UnknownCode;

    ghost try_from_gives = { λ o r. r ≡ decoded cause_of o };

    fn try_from(code: u8) -> Result<Cause, UnknownCode> {
        match code {
            0x00 => Ok(Cause::ParameterNotRecognised),
            0x01 => Ok(Cause::ParameterValueInvalid),
            0x02 => Ok(Cause::MessageReferenceNotIdentified),
            0x03 => Ok(Cause::CellIdentityNotValid),
            0x04 => Ok(Cause::UnrecognisedMessage),
            0x05 => Ok(Cause::MissingMandatoryElement),
            0x06 => Ok(Cause::BscCapacityExceeded),
            0x07 => Ok(Cause::CellMemoryExceeded),
            0x08 => Ok(Cause::BscMemoryExceeded),
            0x09 => Ok(Cause::CellBroadcastNotSupported),
            0x0a => Ok(Cause::CellBroadcastNotOperational),
            0x0b => Ok(Cause::IncompatibleDrxParameter),
            0x0c => Ok(Cause::ExtendedChannelNotSupported),
            0x0d => Ok(Cause::MessageReferenceAlreadyUsed),
            0x0e => Ok(Cause::UnspecifiedError),
            0x0f => Ok(Cause::LaiOrLacNotValid),
            _ => Err(UnknownCode(code)),
        }
    }
}

// Its name in the standard (3GPP TS 48.049, 8.2).
impl fmt::Display for Cause {
    ghost output = { λ v. Some (cause_name v) };

    fn fmt<W: fmt::Write>(&self, f: &mut fmt::Formatter<W>) -> fmt::Result {
        f.write_str(match self {
            Cause::ParameterNotRecognised => "Parameter-not-recognised",
            Cause::ParameterValueInvalid => "Parameter-value-invalid",
            Cause::MessageReferenceNotIdentified => "Message-reference-not-identified",
            Cause::CellIdentityNotValid => "Cell-identity-not-valid",
            Cause::UnrecognisedMessage => "Unrecognised-message",
            Cause::MissingMandatoryElement => "Missing-mandatory-element",
            Cause::BscCapacityExceeded => "BSC-capacity-exceeded",
            Cause::CellMemoryExceeded => "Cell-memory-exceeded",
            Cause::BscMemoryExceeded => "BSC-memory-exceeded",
            Cause::CellBroadcastNotSupported => "Cell-broadcast-not-supported",
            Cause::CellBroadcastNotOperational => "Cell-broadcast-not-operational",
            Cause::IncompatibleDrxParameter => "Incompatible-DRX-parameter",
            Cause::ExtendedChannelNotSupported => "Extended-channel-not-supported",
            Cause::MessageReferenceAlreadyUsed => "Message-reference-already-used",
            Cause::UnspecifiedError => "Unspecified-error",
            Cause::LaiOrLacNotValid => "LAI-or-LAC-not-valid",
        })
    }
}
