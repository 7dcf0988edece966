// Messages written into lent space. The types stand apart from the writing: message_type answers one without a
// message being written.
ghost use Rattle.std.specs.Prelude.{◌≡◌, take, IfOk, Ok};
ghost use Rattle.cbsp.specs.Types.{type_code};
ghost use Rattle.elements.specs.Whole.{headed};
ghost use Rattle.requests.specs.Requests.{request_meant, request_type};
ghost use Rattle.answers.specs.Answers.{answer_meant, answer_type};
ghost use Rattle.messages.specs.Messages.{answer as answer_v, message_meant, message_type, read_message, request as request_v};
ghost use Rattle.writing.specs.Writing.{Written, WrittenAs, can_be_spelt};

use crate::unwritten::Unwritten;
use answers::answer::Answer;
use answers::layouts::{
    ErrorIndicationFields, FailureFields, KeepAliveCompleteElements, KillCompleteFields,
    KillFailureFields, ResetCompleteElements, ResetFailureFields, RestartFields,
    StatusCompleteFields, StatusFailureFields, WriteReplaceCompleteFields,
    WriteReplaceFailureFields,
};
use cbsp::framing::HEADER;
use cbsp::message_type::MessageType;
use elements::elements::{Elements, MOST};
use elements::writer::Writer;
use messages::message::Message;
use requests::layouts::{KeepAliveElements, ReferenceFields, ResetElements, WriteFields};
use requests::request::Request;

// The types of requests, and below of answers and of any message. No From for the three: none of the types is
// of this crate.
fn request_type(request: Request<'_>) -> MessageType
    ensures { result ≡ request_type (request_meant request.entry) }
{
    match request {
        Request::WriteReplace(_) => MessageType::WriteReplace,
        Request::Kill(_) => MessageType::Kill,
        Request::MessageStatusQuery(_) => MessageType::MessageStatusQuery,
        Request::Reset(_) => MessageType::Reset,
        Request::KeepAlive(_) => MessageType::KeepAlive,
    }
}

fn answer_type(answer: Answer<'_>) -> MessageType
    ensures { result ≡ answer_type (answer_meant answer.entry) }
{
    match answer {
        Answer::WriteReplaceComplete(_) => MessageType::WriteReplaceComplete,
        Answer::WriteReplaceFailure(_) => MessageType::WriteReplaceFailure,
        Answer::KillComplete(_) => MessageType::KillComplete,
        Answer::KillFailure(_) => MessageType::KillFailure,
        Answer::MessageStatusQueryComplete(_) => MessageType::MessageStatusQueryComplete,
        Answer::MessageStatusQueryFailure(_) => MessageType::MessageStatusQueryFailure,
        Answer::ResetComplete(_) => MessageType::ResetComplete,
        Answer::ResetFailure(_) => MessageType::ResetFailure,
        Answer::Restart(_) => MessageType::Restart,
        Answer::Failure(_) => MessageType::Failure,
        Answer::ErrorIndication(_) => MessageType::ErrorIndication,
        Answer::KeepAliveComplete => MessageType::KeepAliveComplete,
    }
}

// The type of a message.
pub fn message_type(message: Message<'_>) -> MessageType
    ensures { result ≡ message_type (message_meant message.entry) }
{
    match message {
        Message::Request(r) => request_type(r),
        Message::Answer(a) => answer_type(a),
    }
}

// Writes a header and the elements behind it, measured first. let .. else, no ok_or: the proofs of the answers
// read that there is a width.
fn write_elements<'a, E: Elements<'a>>(
    out: &mut [u8],
    kind: MessageType,
    value: E::Value,
) -> Result<usize, Unwritten>
    ensures { WrittenAs (can_be_spelt (E.codec.fits (E.meant value)) (headed (type_code kind) (E.codec.spell (E.meant value)))) (headed (type_code kind) (E.codec.spell (E.meant value))) out.old out.new result }
{
    let Some(width) = E::width(value) else {
        return Err(Unwritten::OutOfRange);
    };
    if width > MOST {
        return Err(Unwritten::OutOfRange);
    }
    if out.len() < width + HEADER {
        return Err(Unwritten::NoRoom);
    }
    let mut writer = Writer::new(out);
    writer.put_octet(kind.into());
    writer.put_three(width as u32);
    E::put(&mut writer, value);
    Ok(writer.at)
}

// An arm for each message, here and in write_answer: what is written differs in type.
fn write_request(out: &mut [u8], request: Request<'_>) -> Result<usize, Unwritten>
    ensures { Written (request_v (request_meant request.entry)) out.old out.new result }
{
    let kind = request_type(request);
    match request {
        Request::WriteReplace(v) => write_elements::<WriteFields>(out, kind, v),
        Request::Kill(v) => write_elements::<ReferenceFields>(out, kind, v),
        Request::MessageStatusQuery(v) => write_elements::<ReferenceFields>(out, kind, v),
        Request::Reset(v) => write_elements::<ResetElements>(out, kind, v.cells),
        Request::KeepAlive(v) => write_elements::<KeepAliveElements>(out, kind, v.period),
    }
}

fn write_answer(out: &mut [u8], answer: Answer<'_>) -> Result<usize, Unwritten>
    ensures { Written (answer_v (answer_meant answer.entry)) out.old out.new result }
{
    let kind = answer_type(answer);
    match answer {
        Answer::WriteReplaceComplete(v) => {
            write_elements::<WriteReplaceCompleteFields>(out, kind, v)
        }
        Answer::WriteReplaceFailure(v) => write_elements::<WriteReplaceFailureFields>(out, kind, v),
        Answer::KillComplete(v) => write_elements::<KillCompleteFields>(out, kind, v),
        Answer::KillFailure(v) => write_elements::<KillFailureFields>(out, kind, v),
        Answer::MessageStatusQueryComplete(v) => {
            write_elements::<StatusCompleteFields>(out, kind, v)
        }
        Answer::MessageStatusQueryFailure(v) => write_elements::<StatusFailureFields>(out, kind, v),
        Answer::ResetComplete(v) => write_elements::<ResetCompleteElements>(out, kind, v.cells),
        Answer::ResetFailure(v) => write_elements::<ResetFailureFields>(out, kind, v),
        Answer::Restart(v) => write_elements::<RestartFields>(out, kind, v),
        Answer::Failure(v) => write_elements::<FailureFields>(out, kind, v),
        Answer::ErrorIndication(v) => write_elements::<ErrorIndicationFields>(out, kind, v),
        Answer::KeepAliveComplete => write_elements::<KeepAliveCompleteElements>(out, kind, ()),
    }
}

// Writes any message that is in range from the start of a space that has room for it; what follows it stays.
pub fn write_message(out: &mut [u8], message: Message<'_>) -> Result<usize, Unwritten>
    ensures value { Written (message_meant message.entry) out.old out.new result }
    ensures back { IfOk result (λ n. read_message (take n out.new) ≡ Ok (message_meant message.entry)) }
{
    match message {
        Message::Request(request) => write_request(out, request),
        Message::Answer(answer) => write_answer(out, answer),
    }
}
