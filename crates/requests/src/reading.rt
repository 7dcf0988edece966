// Requests read.
ghost use Rattle.std.specs.Prelude.{◌≡◌, slice_index};
ghost use Rattle.cbsp.specs.Types.{type_of};
ghost use Rattle.elements.specs.Octets.{Told};
ghost use Rattle.requests.specs.Requests.{read_request, request_meant};

use crate::layouts::{KeepAliveElements, ReferenceFields, ResetElements, WriteFields};
use crate::request::{KeepAlive, Request, Reset};
use cbsp::message_type::MessageType;
use elements::faults::{Fault, unrecognised};
use elements::reading::read_whole;

// The type that the first octet stands for.
pub fn type_of(octets: &[u8]) -> Option<MessageType>
    ensures { result ≡ type_of (slice_index octets.now 0) }
{
    let first = octets.first()?;
    MessageType::try_from(*first).ok()
}

// The request that a framed message is; every other message is not recognised. An arm for each type: what is
// read is of several types, so that no one table can hold the readers.
pub fn read_request<'a>(octets: &'a [u8]) -> Result<Request<'a>, Fault>
    ensures { Told request_meant result (read_request octets.now) }
{
    match type_of(octets) {
        Some(MessageType::WriteReplace) => {
            Ok(Request::WriteReplace(read_whole::<WriteFields>(octets)?))
        }
        Some(MessageType::Kill) => Ok(Request::Kill(read_whole::<ReferenceFields>(octets)?)),
        Some(MessageType::MessageStatusQuery) => {
            Ok(Request::MessageStatusQuery(read_whole::<ReferenceFields>(octets)?))
        }
        Some(MessageType::Reset) => {
            let cells = read_whole::<ResetElements>(octets)?;
            Ok(Request::Reset(Reset { cells }))
        }
        Some(MessageType::KeepAlive) => {
            let period = read_whole::<KeepAliveElements>(octets)?;
            Ok(Request::KeepAlive(KeepAlive { period }))
        }
        _ => Err(unrecognised()),
    }
}
