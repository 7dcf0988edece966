// The answer to a request with a fault.
ghost use Rattle.std.specs.Prelude.{◌≡◌};
ghost use Rattle.answers.specs.Answers.{error};
ghost use Rattle.messages.specs.Messages.{answer, error_for, message_meant};

use crate::message::Message;
use answers::answer::{Answer, ErrorIndication};
use elements::faults::Fault;

// ERROR INDICATION with the fault's cause alone.
impl<'a> From<Fault> for Message<'a> {
    ghost from_gives = { λ fault r. message_meant r ≡ answer (error (error_for fault)) };

    fn from(fault: Fault) -> Message<'a> {
        Message::Answer(Answer::ErrorIndication(ErrorIndication {
            cause: fault.cause,
            identifier: None,
            new_serial: None,
            old_serial: None,
            channel: None,
        }))
    }
}
