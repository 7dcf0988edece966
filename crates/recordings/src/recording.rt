// A recording: a cell file, then messages one behind the other, of either side.
ghost use Rattle.std.specs.Prelude.{◌≡◌, ◌≤◌, length};
ghost use Rattle.std.specs.Iterator.{at_most};
ghost use Rattle.recordings.specs.Recording.{NextPart, Within, file_end, part_of};

use cbsp::framing::first_length;

// Why the rest of a recording begins with no whole message.
#[derive(Clone, Copy, PartialEq, Eq, Debug)]
pub enum NoMessage {
    Unfinished,
    TooLong,
}

// Where the cell file ends by its first octet, or where the recording does.
pub fn file_end(stream: &[u8]) -> usize
    ensures end { result ≡ file_end stream.now }
    ensures within { result ≤ length stream.now }
{
    match stream.first() {
        Some(count) => (2 + 5 * usize::from(*count)).min(stream.len()),
        None => 0,
    }
}

// The length of the message that the rest of a recording begins with, nothing at its end.
pub fn part_of(rest: &[u8]) -> Result<Option<usize>, NoMessage>
    ensures part { result ≡ part_of rest.now }
    ensures within { Within rest.now result }
{
    if rest.is_empty() {
        return Ok(None);
    }
    match first_length(rest) {
        Ok(Some(length)) => Ok(Some(length)),
        Ok(None) => Err(NoMessage::Unfinished),
        Err(_) => Err(NoMessage::TooLong),
    }
}

// A message of a recording, or what is left where there is no other, and the offset at which it begins.
#[derive(Clone, Copy)]
pub struct Part<'a> {
    // the offset is shown, from the recording's start
    pub offset: usize,
    pub octets: &'a [u8],
    // a field, no Result around: a rest has an offset and octets too
    pub whole: Result<(), NoMessage>,
}

// The rest of a recording, from an offset on, part by part.
#[derive(Clone, Copy)]
pub struct Parts<'a> {
    // the rest alone does not say it, and it is shown, from the recording's start
    pub offset: usize,
    pub rest: &'a [u8],
}

impl<'a> Iterator for Parts<'a> {
    type Item = Part<'a>;

    ghost next_gives = { NextPart };

    ghost remaining = { λ s. at_most (length s.rest.now) };

    fn next(&mut self) -> Option<Part<'a>> {
        let offset = self.offset;
        let (length, whole) = match part_of(self.rest) {
            Ok(length) => (length?, Ok(())),
            Err(why) => (self.rest.len(), Err(why)),
        };
        let (octets, rest) = self.rest.split_at(length);
        self.offset = offset.saturating_add(length);
        self.rest = rest;
        Some(Part {
            offset,
            octets,
            whole,
        })
    }
}
