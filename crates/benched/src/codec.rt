// Messages read with all that is in them, and written.

ghost use Rattle.std.specs.Prelude.{◌-◌, ◌^◌};
ghost use Rattle.std.specs.Iterator.{IsFinite, UpTo};

use answers::answer::{Answer, Done, KillComplete};
use cbsp::limits::{MOST_NAMED, MOST_PAGES};
use lists::cell::CellIdentity;
use lists::cells::Cells;
use lists::entries::Entries;
use lists::kinds::{CellEntry, CompletedEntry};
use messages::message::Message;
use messages::reading::read_message;
use pages::pages::Pages;
use requests::request::{Request, WriteReplace};
use writing::writing::write_message;

// The cell of its Cell List.
const ONE_CELL: [CellEntry; 1] = [CellEntry {
    cell: CellIdentity::LacCi(0x0101, 0x0001),
}];

// A number out of an identity, of which the benchmark makes a sum.
fn low(cell: CellIdentity) -> u32 {
    match cell {
        CellIdentity::LacCi(lac, ci) => u32::from(lac) + u32::from(ci),
        CellIdentity::Ci(ci) => u32::from(ci),
        CellIdentity::Lac(lac) => u32::from(lac),
        CellIdentity::All => 1,
    }
}

// The sum of all the numbers, so that the reading of none is left out.
fn sum<I: Iterator<Item = u32>>(numbers: I) -> u32
    requires can { I.can_next numbers }
    requires ends { IsFinite (I.remaining numbers) }
{
    numbers.fold(0, |sum, number| sum.wrapping_add(number))
}

// A number for C out of the entries and pages of the two messages of the benchmark, 1 of any other. A match
// tells the two apart: each has other entries.
fn walk(message: Message<'_>) -> u32 {
    match message {
        Message::Request(Request::WriteReplace(write)) => {
            let cells = match write.cells {
                Cells::Named(entries) => sum(entries.map(|entry| low(entry.cell))),
                Cells::All => 0,
            };
            let pages = write
                .pages
                .map(|page| u32::from(page.used) + u32::from(page.content[0]));
            cells.wrapping_add(sum(pages))
        }
        Message::Answer(Answer::KillComplete(ended)) => ended.done.completed.map_or(1, |entries| {
            sum(entries.map(|entry| low(entry.cell).wrapping_add(u32::from(entry.count))))
        }),
        _ => 1,
    }
}

// Reads a message and goes through its entries and pages; to C 0 says that it is none.
#[unsafe(no_mangle)]
pub extern "C" fn bench_read(octets: &[u8]) -> u32 {
    read_message(octets).map_or(0, walk)
}

// Items put into a space, as many as there is room for.
fn gather<'a, T: Drop, I: Iterator<Item = T> + Copy>(items: I, space: &'a mut [T]) -> &'a [T]
    requires can { I.can_next items × IsFinite (I.remaining items) }
    requires few { UpTo (I.remaining items) (2 ^ 64 - 1) }
{
    let count = items.count().min(space.len());
    let given = &mut space[..count];
    for (place, item) in given.iter_mut().zip(items) {
        *place = item;
    }
    given
}

// The length that is written last, nothing where nothing is.
fn write_again(out: &mut [u8], message: Message<'_>, rounds: u32) -> Option<usize> {
    let written = (0..rounds).map(|_| write_message(out, message).ok());
    written.last().flatten()
}

// The same of a KILL COMPLETE whose entries are put into a slice first, as a controller has them.
fn write_completed(out: &mut [u8], ended: KillComplete<'_>, rounds: u32) -> Option<usize> {
    let entries = ended.done.completed?;
    let mut rest = entries;
    let mut space = [rest.next()?; 192];
    let done = Done {
        completed: Some(Entries::Given(gather(entries, &mut space))),
        cells: Some(Cells::Named(Entries::Given(&ONE_CELL))),
        channel: ended.done.channel,
    };
    let given = KillComplete { done, ..ended };
    write_again(out, Message::Answer(Answer::KillComplete(given)), rounds)
}

// The same of a WRITE-REPLACE whose entries and pages are put into slices first.
fn write_given(out: &mut [u8], write: WriteReplace<'_>, rounds: u32) -> Option<usize> {
    let Cells::Named(entries) = write.cells else {
        return None;
    };
    let mut rest = entries;
    let mut cells = [rest.next()?; MOST_NAMED];
    let mut pages_left = write.pages;
    let mut pages = [pages_left.next()?; MOST_PAGES];
    let given = WriteReplace {
        cells: Cells::Named(Entries::Given(gather(entries, &mut cells))),
        pages: Pages::Given(gather(write.pages, &mut pages)),
        ..write
    };
    write_again(out, Message::Request(Request::WriteReplace(given)), rounds)
}

// To C the length that was written last is a number, 0 where there is none.
fn written(last: Option<usize>) -> u32 {
    last.map_or(0, |length| (length & 0xffff) as u32)
}

// Reads a message once and writes it so many times, its lists and pages from where they stand.
#[unsafe(no_mangle)]
pub extern "C" fn bench_write(octets: &[u8], out: &mut [u8], rounds: u32) -> u32 {
    written(
        read_message(octets)
            .ok()
            .and_then(|message| write_again(out, message, rounds)),
    )
}

// The same, its lists and pages from slices.
#[unsafe(no_mangle)]
pub extern "C" fn bench_write_given(octets: &[u8], out: &mut [u8], rounds: u32) -> u32 {
    written(match read_message(octets) {
        Ok(Message::Answer(Answer::KillComplete(ended))) => write_completed(out, ended, rounds),
        Ok(Message::Request(Request::WriteReplace(write))) => write_given(out, write, rounds),
        Ok(message) => write_again(out, message, rounds),
        Err(_) => None,
    })
}
