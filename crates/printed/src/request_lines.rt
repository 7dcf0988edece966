// The requests of a centre.
use crate::subject::Subject;
use requests::request::{Reference, Request, WriteReplace};
use shown::element_lines::{Broadcasts, KeepAlivePeriod, Period};
use shown::lines::Lines;
use std::io;

fn show_write_replace(lines: &Lines<'_, impl Print>, message: WriteReplace<'_>) -> io::Result<()> {
    Subject::beginning(message.identifier, message.new_serial, message.old_serial).show(lines)?;
    lines.cells(message.cells)?;
    lines.element("Channel Indicator", message.channel)?;
    lines.element("Category", message.category)?;
    lines.element("Repetition Period", Period(message.period))?;
    lines.element(
        "Number of Broadcasts Requested",
        Broadcasts(message.broadcasts),
    )?;
    lines.pages(message.coding, message.pages)
}

fn show_reference(lines: &Lines<'_, impl Print>, message: Reference<'_>) -> io::Result<()> {
    Subject::begun(message.identifier, message.serial).show(lines)?;
    lines.cells(message.cells)?;
    lines.element("Channel Indicator", message.channel)
}

// A match on what the message is: each case has other fields, and so other lines.
pub fn show_request(lines: &Lines<'_, impl Print>, request: Request<'_>) -> io::Result<()> {
    match request {
        Request::WriteReplace(message) => show_write_replace(lines, message),
        Request::Kill(message) | Request::MessageStatusQuery(message) => {
            show_reference(lines, message)
        }
        Request::Reset(message) => lines.cells(message.cells),
        Request::KeepAlive(message) => lines.element(
            "Keep Alive Repetition Period",
            KeepAlivePeriod(message.period),
        ),
    }
}
