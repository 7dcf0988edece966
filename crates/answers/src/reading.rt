// Answers and indications read.
ghost use Rattle.elements.specs.Octets.{Told};
ghost use Rattle.answers.specs.Answers.{answer_meant, read_answer_of};

use crate::answer::{Answer, ResetComplete};
use crate::layouts::{
    ErrorIndicationFields, FailureFields, KillCompleteFields, KillFailureFields,
    ResetCompleteElements, ResetFailureFields, RestartFields, StatusCompleteFields,
    StatusFailureFields, WriteReplaceCompleteFields, WriteReplaceFailureFields,
};
use cbsp::message_type::MessageType;
use elements::faults::{Fault, unrecognised};
use elements::reader::Reader;
use elements::reading::read_whole;

// The answer or indication of a type. An arm for each type: what is read is of several types, so that no one
// table can hold the readers.
pub fn read_answer_of<'a>(kind: Option<MessageType>, octets: &'a [u8]) -> Result<Answer<'a>, Fault>
    ensures { Told answer_meant result (read_answer_of kind octets.now) }
{
    match kind {
        Some(MessageType::WriteReplaceComplete) => Ok(Answer::WriteReplaceComplete(read_whole::<
            WriteReplaceCompleteFields,
        >(octets)?)),
        Some(MessageType::WriteReplaceFailure) => Ok(Answer::WriteReplaceFailure(read_whole::<
            WriteReplaceFailureFields,
        >(octets)?)),
        Some(MessageType::KillComplete) => Ok(Answer::KillComplete(read_whole::<KillCompleteFields>(
            octets,
        )?)),
        Some(MessageType::KillFailure) => Ok(Answer::KillFailure(read_whole::<KillFailureFields>(
            octets,
        )?)),
        Some(MessageType::MessageStatusQueryComplete) => Ok(Answer::MessageStatusQueryComplete(
            read_whole::<StatusCompleteFields>(octets)?,
        )),
        Some(MessageType::MessageStatusQueryFailure) => Ok(Answer::MessageStatusQueryFailure(
            read_whole::<StatusFailureFields>(octets)?,
        )),
        Some(MessageType::ResetComplete) => {
            let cells = read_whole::<ResetCompleteElements>(octets)?;
            Ok(Answer::ResetComplete(ResetComplete { cells }))
        }
        Some(MessageType::ResetFailure) => Ok(Answer::ResetFailure(read_whole::<ResetFailureFields>(
            octets,
        )?)),
        Some(MessageType::Restart) => Ok(Answer::Restart(read_whole::<RestartFields>(octets)?)),
        Some(MessageType::Failure) => Ok(Answer::Failure(read_whole::<FailureFields>(octets)?)),
        Some(MessageType::ErrorIndication) => Ok(Answer::ErrorIndication(read_whole::<
            ErrorIndicationFields,
        >(octets)?)),
        Some(MessageType::KeepAliveComplete) => {
            Reader::new(octets).end()?;
            Ok(Answer::KeepAliveComplete)
        }
        _ => Err(unrecognised()),
    }
}
