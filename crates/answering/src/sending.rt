// Writing a reply into the host's space.
ghost use Rattle.std.specs.Prelude.{◌≤◌, length};
ghost use Rattle.answers.specs.Answers.{answer_meant};
ghost use Rattle.answering.specs.Fitting.{Sent, Spelt};

use answers::answer::Answer;
use messages::message::Message;
use writing::writing::write_message;

// The host's octets come as a slice, and the room is asked here: what follows the answer stays the host's.
// Writes an answer at the start of a space of at least 2,048 octets; what follows it stays. Answers its length.
pub fn send(space: &mut [u8], answer: Answer<'_>) -> usize
    requires room { 2048 ≤ length space.old }
    requires fits { Spelt (answer_meant answer) }
    ensures { Sent (answer_meant answer.entry) result space.old space.new }
{
    // a match: that the error does not come is what is proved in its arm
    match write_message(space, Message::Answer(answer)) {
        Ok(written) => written,
        Err(_) => unreachable(),
    }
}
