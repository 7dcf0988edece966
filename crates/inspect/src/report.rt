// The lines that are written of a recording.
use cbsp::message_type::MessageType;
use cells::cell::{Capability, Cell};
use cells::list::CellList;
use printed::message_lines::show_elements;
use recordings::recording::{NoMessage, Part, Parts, file_end};
use shown::lines::Lines;
use std::{fmt, io};

// The whole recording: its cells, then its messages.
pub fn show(rt: &impl Print, list: &mut CellList, stream: &[u8]) -> io::Result<()> {
    let end = file_end(stream);
    let (file, rest) = stream.split_at(end);
    match list.read(file) {
        Ok(count) => {
            let known = list.cells();
            let cells = if count == 1 { "cell" } else { "cells" };
            println!(rt; "cell file: {end} octets, {count} {cells}")?;
            show_cells(rt, known)?;
            show_parts(&Lines { rt, known }, Parts { offset: end, rest })
        }
        Err(refusal) => {
            let number = u8::from(refusal);
            let count = rest.len();
            println!(rt; "cell file: refused with number {number}: {refusal}")?;
            println!(rt;
                "{count} octets from offset {end} on are not read: where messages begin is told by the cell file"
            )
        }
    }
}

// The channels on which a cell can broadcast. Clone and Copy alone: they are made, printed and never compared.
#[derive(Clone, Copy)]
struct Channels(Capability);

impl fmt::Display for Channels {
    fn fmt<W: fmt::Write>(&self, f: &mut fmt::Formatter<W>) -> fmt::Result {
        f.write_str(match self.0 {
            Capability::NoChannel => "no channel",
            Capability::BasicOnly => "basic channel",
            Capability::BothChannels => "basic and extended channels",
        })
    }
}

// A line of its own, no Display of a cell: a cell's number is its place.
fn show_cells(rt: &impl Print, cells: &[Cell]) -> io::Result<()> {
    for (number, cell) in cells.iter().enumerate() {
        let lac = cell.identity.lac;
        let ci = cell.identity.ci;
        let channels = Channels(cell.capability);
        println!(rt; "cell {number}: LAC {lac:04x}, CI {ci:04x}, {channels}")?;
    }
    Ok(())
}

// Each whole message, and what is left when there is no other.
fn show_parts(lines: &Lines<'_, impl Print>, parts: Parts<'_>) -> io::Result<()> {
    for part in parts {
        match part.whole {
            Ok(()) => show_message(lines, part)?,
            Err(why) => show_rest(lines.rt, part, why)?,
        }
    }
    Ok(())
}

// A line with the type and the length, then the elements.
fn show_message(lines: &Lines<'_, impl Print>, part: Part<'_>) -> io::Result<()> {
    let Some(code) = part.octets.first() else {
        return Ok(());
    };
    let at = part.offset;
    let length = part.octets.len();
    match MessageType::try_from(*code) {
        Ok(kind) => println!(lines.rt; "offset {at}: {kind}, {length} octets")?,
        Err(_) => println!(lines.rt;
            "offset {at}: type {code:02x} is no message of the standard, {length} octets"
        )?,
    }
    show_elements(lines, at, part.octets)
}

// What stands behind the last message that could be told.
fn show_rest(rt: &impl Print, part: Part<'_>, why: NoMessage) -> io::Result<()> {
    let at = part.offset;
    let count = part.octets.len();
    match why {
        NoMessage::Unfinished => println!(rt;
            "offset {at}: the last message is cut off, {count} octets of it are there"
        ),
        NoMessage::TooLong => println!(rt;
            "offset {at}: {count} octets not understood: a header that announces more than 2,048 octets"
        ),
    }
}
