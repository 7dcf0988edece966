// Any message, and why octets are none.
use answers::answer::Answer;
use cbsp::refusal::Refusal;
use elements::faults::Fault;
use requests::request::Request;

#[derive(Clone, Copy)]
pub enum Message<'a> {
    Request(Request<'a>),
    Answer(Answer<'a>),
}

// Octets that are not one whole message, or a message with a fault.
#[derive(Clone, Copy, PartialEq, Eq, Debug)]
pub enum Unread {
    Refused(Refusal),
    Faulty(Fault),
}
