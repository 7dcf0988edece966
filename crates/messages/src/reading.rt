// Messages read.
ghost use Rattle.std.specs.Prelude.{◌≡◌, IfOk};
ghost use Rattle.elements.specs.Octets.{Told};
ghost use Rattle.messages.specs.declared.message.Unread.TheVariants.{Refused, Faulty};
ghost use Rattle.messages.specs.Messages.{InRange, asks as asks_for, message_meant, read_framed, read_message, spell, whole_message};

use crate::message::{Message, Unread};
use answers::reading::read_answer_of;
use cbsp::framing::{LONGEST, announced};
use cbsp::message_type::MessageType;
use cbsp::refusal::Refusal;
use elements::faults::Fault;
use requests::reading::{read_request, type_of};

impl From<Refusal> for Unread {
    ghost from_gives = { λ e r. r ≡ Refused e };

    fn from(e: Refusal) -> Unread {
        Unread::Refused(e)
    }
}

impl From<Fault> for Unread {
    ghost from_gives = { λ e r. r ≡ Faulty e };

    fn from(e: Fault) -> Unread {
        Unread::Faulty(e)
    }
}

// Whether a type is that of a request. A yes or no: the types themselves say nothing of their side, and the
// definition of read_framed asks the same.
fn asks(kind: Option<MessageType>) -> bool
    ensures { result ≡ asks_for kind }
{
    matches!(
        kind,
        Some(
            MessageType::WriteReplace
                | MessageType::Kill
                | MessageType::MessageStatusQuery
                | MessageType::Reset
                | MessageType::KeepAlive
        )
    )
}

// What a framed message is, request, answer or indication. Halves by asks, no arm for each type: requests and
// answers are read in crates of their own.
pub fn read_framed<'a>(octets: &'a [u8]) -> Result<Message<'a>, Fault>
    ensures { Told message_meant result (read_framed octets.now) }
{
    let kind = type_of(octets);
    if asks(kind) {
        return Ok(Message::Request(read_request(octets)?));
    }
    Ok(Message::Answer(read_answer_of(kind, octets)?))
}

// Whether octets are one whole message, by their number and the header alone.
pub fn check_whole(octets: &[u8]) -> Result<(), Refusal>
    ensures { result ≡ whole_message octets.now }
{
    if octets.len() > LONGEST {
        return Err(Refusal::MessageTooLong);
    }
    match announced(octets) {
        Some(whole) if whole == octets.len() => Ok(()),
        _ => Err(Refusal::MessageNotWhole),
    }
}

fn read_checked<'a>(octets: &'a [u8]) -> Result<Message<'a>, Unread>
    ensures { Told message_meant result (read_message octets.now) }
{
    check_whole(octets)?;
    Ok(read_framed(octets)?)
}

// One whole message; what is accepted spells out to its octets again.
pub fn read_message<'a>(octets: &'a [u8]) -> Result<Message<'a>, Unread>
    ensures value { Told message_meant result (read_message octets.now) }
    ensures spelt { IfOk result (λ m. (octets.now ≡ spell (message_meant m)) × InRange (message_meant m)) }
{
    read_checked(octets)
}
