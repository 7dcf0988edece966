// Why a call is refused to the host.
ghost use Rattle.std.specs.Prelude.{◌≡◌, Some};
ghost use Rattle.cbsp.specs.Refusals.{refusal_number, refusal_text};

use std::fmt;

#[derive(Clone, Copy, PartialEq, Eq, Debug)]
pub enum Refusal {
    ReplySpaceTooSmall = 1,
    WrongMarkCount = 2,
    MessageTooLong = 3,
    MessageNotWhole = 4,
    LinkNotCurrent = 5,
    OpeningsUsedUp = 6,
    PeriodsUsedUp = 7,
    NoSuchCell = 8,
    CellAlreadySo = 9,
    FileLength = 10,
    FileHeading = 11,
    IdentityTwice = 12,
    UnknownCapability = 13,
    FrameMemoryTooSmall = 14,
}

// The number by which the host knows it.
impl From<Refusal> for u8 {
    ghost from_gives = { λ v r. r ≡ refusal_number v };

    fn from(refusal: Refusal) -> u8 {
        refusal as u8
    }
}

// What was wrong, in words.
impl fmt::Display for Refusal {
    ghost output = { λ v. Some (refusal_text v) };

    fn fmt<W: fmt::Write>(&self, f: &mut fmt::Formatter<W>) -> fmt::Result {
        f.write_str(match self {
            Refusal::ReplySpaceTooSmall => "the reply space has fewer than 2,048 octets",
            Refusal::WrongMarkCount => "the marks are not 64 octets",
            Refusal::MessageTooLong => "the message has more than 2,048 octets",
            Refusal::MessageNotWhole => "the octets are not one whole message",
            Refusal::LinkNotCurrent => "the link is stale, or the table is not announced",
            Refusal::OpeningsUsedUp => "65,535 openings were made",
            Refusal::PeriodsUsedUp => "4,294,967,295 periods were made",
            Refusal::NoSuchCell => "there is no such cell",
            Refusal::CellAlreadySo => "the cell is in that state already",
            Refusal::FileLength => "the cell file has not the length that its heading gives",
            Refusal::FileHeading =>
                "the cell file does not begin with 1 to 64 cells and identities of 4 octets",
            Refusal::IdentityTwice => "the cell file has an identity twice",
            Refusal::UnknownCapability => "the cell file has a capability other than 0, 1 and 3",
            Refusal::FrameMemoryTooSmall => "the frame memory has fewer than 21,152 octets",
        })
    }
}
