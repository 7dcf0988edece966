// The elements of any message.
use crate::answer_lines::show_answer;
use crate::fault_lines::show_unread;
use crate::request_lines::show_request;
use messages::message::Message;
use messages::reading::read_message;
use shown::lines::Lines;
use std::io;

// The elements of a message that begins at an offset of what is read, or what is wrong with it.
pub fn show_elements(
    lines: &Lines<'_, impl Print>,
    offset: usize,
    octets: &[u8],
) -> io::Result<()> {
    match read_message(octets) {
        Ok(Message::Request(request)) => show_request(lines, request),
        Ok(Message::Answer(answer)) => show_answer(lines, answer),
        Err(why) => show_unread(lines.rt, offset, octets, why),
    }
}
