// The answers and indications of a controller.
use crate::subject::Subject;
use answers::answer::{
    Answer, Done, ErrorIndication, Failure, ResetFailure, Restart, StatusComplete, StatusFailure,
};
use lists::entries::Entries;
use lists::kinds::FailedEntry;
use shown::element_lines::NamedCause;
use shown::lines::Lines;
use std::io;

// What came of a request: which message it was about, where it failed, and what was done.
fn show_outcome(
    lines: &Lines<'_, impl Print>,
    subject: Subject,
    failures: Option<Entries<'_, FailedEntry>>,
    done: Done<'_>,
) -> io::Result<()> {
    subject.show(lines)?;
    if let Some(entries) = failures {
        lines.failures(entries)?;
    }
    if let Some(entries) = done.completed {
        lines.completed(entries)?;
    }
    if let Some(cells) = done.cells {
        lines.cells(cells)?;
    }
    lines.optional("Channel Indicator", done.channel)
}

fn show_status(lines: &Lines<'_, impl Print>, message: StatusComplete<'_>) -> io::Result<()> {
    let subject = Subject::begun(message.identifier, message.serial);
    let done = Done {
        completed: Some(message.completed),
        cells: None,
        channel: Some(message.channel),
    };
    show_outcome(lines, subject, None, done)
}

fn show_status_failure(
    lines: &Lines<'_, impl Print>,
    message: StatusFailure<'_>,
) -> io::Result<()> {
    Subject::begun(message.identifier, message.serial).show(lines)?;
    lines.failures(message.failures)?;
    lines.element("Channel Indicator", message.channel)?;
    message
        .completed
        .map_or(Ok(()), |entries| lines.completed(entries))
}

// This and the next two have two or three lines each, in the order of the message's elements.
fn show_reset_failure(lines: &Lines<'_, impl Print>, message: ResetFailure<'_>) -> io::Result<()> {
    lines.failures(message.failures)?;
    message.cells.map_or(Ok(()), |cells| lines.cells(cells))
}

fn show_restart(lines: &Lines<'_, impl Print>, message: Restart<'_>) -> io::Result<()> {
    lines.cells(message.cells)?;
    lines.element("Broadcast Message Type", message.broadcast)?;
    lines.element("Recovery Indication", message.recovery)
}

fn show_failure(lines: &Lines<'_, impl Print>, message: Failure<'_>) -> io::Result<()> {
    lines.failures(message.failures)?;
    lines.element("Broadcast Message Type", message.broadcast)
}

fn show_error_indication(
    lines: &Lines<'_, impl Print>,
    message: ErrorIndication,
) -> io::Result<()> {
    let subject = Subject {
        identifier: message.identifier,
        new_serial: message.new_serial,
        old_serial: message.old_serial,
    };
    lines.element("Cause", NamedCause(message.cause))?;
    subject.show(lines)?;
    lines.optional("Channel Indicator", message.channel)
}

pub fn show_answer(lines: &Lines<'_, impl Print>, answer: Answer<'_>) -> io::Result<()> {
    match answer {
        Answer::WriteReplaceComplete(begun) => show_outcome(
            lines,
            Subject::beginning(begun.identifier, begun.new_serial, begun.old_serial),
            None,
            begun.done,
        ),
        Answer::WriteReplaceFailure(begun) => show_outcome(
            lines,
            Subject::beginning(begun.identifier, begun.new_serial, begun.old_serial),
            Some(begun.failures),
            begun.done,
        ),
        Answer::KillComplete(ended) => show_outcome(
            lines,
            Subject::begun(ended.identifier, ended.serial),
            None,
            ended.done,
        ),
        Answer::KillFailure(ended) => show_outcome(
            lines,
            Subject::begun(ended.identifier, ended.serial),
            Some(ended.failures),
            ended.done,
        ),
        Answer::MessageStatusQueryComplete(counted) => show_status(lines, counted),
        Answer::MessageStatusQueryFailure(counted) => show_status_failure(lines, counted),
        Answer::ResetComplete(emptied) => lines.cells(emptied.cells),
        Answer::ResetFailure(emptied) => show_reset_failure(lines, emptied),
        Answer::Restart(back) => show_restart(lines, back),
        Answer::Failure(lost) => show_failure(lines, lost),
        Answer::ErrorIndication(message) => show_error_indication(lines, message),
        Answer::KeepAliveComplete => Ok(()),
    }
}
