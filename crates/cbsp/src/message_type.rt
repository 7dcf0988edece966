// The type octet of a message.
ghost use Rattle.std.specs.Prelude.{◌≡◌, Some};
ghost use Rattle.cbsp.specs.Types.{type_code, type_name, type_of};
ghost use Rattle.cbsp.specs.Decoding.{decoded};

use crate::code::UnknownCode;
use std::fmt;

#[derive(Clone, Copy, PartialEq, Eq, Debug)]
pub enum MessageType {
    WriteReplace = 0x01,
    WriteReplaceComplete = 0x02,
    WriteReplaceFailure = 0x03,
    Kill = 0x04,
    KillComplete = 0x05,
    KillFailure = 0x06,
    LoadQuery = 0x07,
    LoadQueryComplete = 0x08,
    LoadQueryFailure = 0x09,
    MessageStatusQuery = 0x0a,
    MessageStatusQueryComplete = 0x0b,
    MessageStatusQueryFailure = 0x0c,
    SetDrx = 0x0d,
    SetDrxComplete = 0x0e,
    SetDrxFailure = 0x0f,
    Reset = 0x10,
    ResetComplete = 0x11,
    ResetFailure = 0x12,
    Restart = 0x13,
    Failure = 0x14,
    ErrorIndication = 0x15,
    KeepAlive = 0x16,
    KeepAliveComplete = 0x17,
}

impl From<MessageType> for u8 {
    ghost from_gives = { λ v r. r ≡ type_code v };

    fn from(kind: MessageType) -> u8 {
        kind as u8
    }
}

impl TryFrom<u8> for MessageType {
    type Error = UnknownCode;

    ghost try_from_gives = { λ o r. r ≡ decoded type_of o };

    fn try_from(code: u8) -> Result<MessageType, UnknownCode> {
        match code {
            0x01 => Ok(MessageType::WriteReplace),
            0x02 => Ok(MessageType::WriteReplaceComplete),
            0x03 => Ok(MessageType::WriteReplaceFailure),
            0x04 => Ok(MessageType::Kill),
            0x05 => Ok(MessageType::KillComplete),
            0x06 => Ok(MessageType::KillFailure),
            0x07 => Ok(MessageType::LoadQuery),
            0x08 => Ok(MessageType::LoadQueryComplete),
            0x09 => Ok(MessageType::LoadQueryFailure),
            0x0a => Ok(MessageType::MessageStatusQuery),
            0x0b => Ok(MessageType::MessageStatusQueryComplete),
            0x0c => Ok(MessageType::MessageStatusQueryFailure),
            0x0d => Ok(MessageType::SetDrx),
            0x0e => Ok(MessageType::SetDrxComplete),
            0x0f => Ok(MessageType::SetDrxFailure),
            0x10 => Ok(MessageType::Reset),
            0x11 => Ok(MessageType::ResetComplete),
            0x12 => Ok(MessageType::ResetFailure),
            0x13 => Ok(MessageType::Restart),
            0x14 => Ok(MessageType::Failure),
            0x15 => Ok(MessageType::ErrorIndication),
            0x16 => Ok(MessageType::KeepAlive),
            0x17 => Ok(MessageType::KeepAliveComplete),
            _ => Err(UnknownCode(code)),
        }
    }
}

// Its name in the standard.
impl fmt::Display for MessageType {
    ghost output = { λ v. Some (type_name v) };

    fn fmt<W: fmt::Write>(&self, f: &mut fmt::Formatter<W>) -> fmt::Result {
        f.write_str(match self {
            MessageType::WriteReplace => "WRITE-REPLACE",
            MessageType::WriteReplaceComplete => "WRITE-REPLACE COMPLETE",
            MessageType::WriteReplaceFailure => "WRITE-REPLACE FAILURE",
            MessageType::Kill => "KILL",
            MessageType::KillComplete => "KILL COMPLETE",
            MessageType::KillFailure => "KILL FAILURE",
            MessageType::LoadQuery => "LOAD QUERY",
            MessageType::LoadQueryComplete => "LOAD QUERY COMPLETE",
            MessageType::LoadQueryFailure => "LOAD QUERY FAILURE",
            MessageType::MessageStatusQuery => "MESSAGE STATUS QUERY",
            MessageType::MessageStatusQueryComplete => "MESSAGE STATUS QUERY COMPLETE",
            MessageType::MessageStatusQueryFailure => "MESSAGE STATUS QUERY FAILURE",
            MessageType::SetDrx => "SET-DRX",
            MessageType::SetDrxComplete => "SET-DRX COMPLETE",
            MessageType::SetDrxFailure => "SET-DRX FAILURE",
            MessageType::Reset => "RESET",
            MessageType::ResetComplete => "RESET COMPLETE",
            MessageType::ResetFailure => "RESET FAILURE",
            MessageType::Restart => "RESTART",
            MessageType::Failure => "FAILURE",
            MessageType::ErrorIndication => "ERROR INDICATION",
            MessageType::KeepAlive => "KEEP-ALIVE",
            MessageType::KeepAliveComplete => "KEEP-ALIVE COMPLETE",
        })
    }
}
