// The answers and indications of the controller. Lists stay where they stand in the octets, or in the caller's
// slices. Identifier and serial numbers stand beside the rest, as the elements do in each message.
use cbsp::channel::Channel;
use elements::broadcast::BroadcastType;
use elements::cause::Cause;
use elements::recovery::Recovery;
use lists::cells::Cells;
use lists::entries::Entries;
use lists::kinds::{CompletedEntry, FailedEntry};

// What was done in the cells: messages that ended, with their counts, cells in which a message began or all ended, and the
// channel, each where there is one.
#[derive(Clone, Copy)]
pub struct Done<'a> {
    pub completed: Option<Entries<'a, CompletedEntry>>,
    pub cells: Option<Cells<'a>>,
    pub channel: Option<Channel>,
}

// WRITE-REPLACE COMPLETE: the message began in every cell.
#[derive(Clone, Copy)]
pub struct WriteReplaceComplete<'a> {
    pub identifier: u16,
    pub new_serial: u16,
    pub old_serial: Option<u16>,
    pub done: Done<'a>,
}

// WRITE-REPLACE FAILURE: it did not begin everywhere.
#[derive(Clone, Copy)]
pub struct WriteReplaceFailure<'a> {
    pub identifier: u16,
    pub new_serial: u16,
    pub old_serial: Option<u16>,
    pub failures: Entries<'a, FailedEntry>,
    pub done: Done<'a>,
}

// KILL COMPLETE: the message ended in every cell.
#[derive(Clone, Copy)]
pub struct KillComplete<'a> {
    pub identifier: u16,
    pub serial: u16,
    pub done: Done<'a>,
}

// KILL FAILURE: it did not end everywhere.
#[derive(Clone, Copy)]
pub struct KillFailure<'a> {
    pub identifier: u16,
    pub serial: u16,
    pub failures: Entries<'a, FailedEntry>,
    pub done: Done<'a>,
}

// MESSAGE STATUS QUERY COMPLETE: the counts of a message.
#[derive(Clone, Copy)]
pub struct StatusComplete<'a> {
    pub identifier: u16,
    pub serial: u16,
    pub completed: Entries<'a, CompletedEntry>,
    pub channel: Channel,
}

// MESSAGE STATUS QUERY FAILURE: some cells have no count of it.
#[derive(Clone, Copy)]
pub struct StatusFailure<'a> {
    pub identifier: u16,
    pub serial: u16,
    pub failures: Entries<'a, FailedEntry>,
    pub channel: Channel,
    pub completed: Option<Entries<'a, CompletedEntry>>,
}

// RESET FAILURE: some cells were not reset.
#[derive(Clone, Copy)]
pub struct ResetFailure<'a> {
    pub failures: Entries<'a, FailedEntry>,
    pub cells: Option<Cells<'a>>,
}

// RESTART: cells that broadcast again.
#[derive(Clone, Copy)]
pub struct Restart<'a> {
    pub cells: Cells<'a>,
    pub broadcast: BroadcastType,
    pub recovery: Recovery,
}

// FAILURE: cells that do not broadcast.
#[derive(Clone, Copy)]
pub struct Failure<'a> {
    pub failures: Entries<'a, FailedEntry>,
    pub broadcast: BroadcastType,
}

// ERROR INDICATION: a request that could not be read.
#[derive(Clone, Copy, PartialEq, Eq, Debug)]
pub struct ErrorIndication {
    pub cause: Cause,
    pub identifier: Option<u16>,
    pub new_serial: Option<u16>,
    pub old_serial: Option<u16>,
    pub channel: Option<Channel>,
}

// RESET COMPLETE: every cell was reset.
#[derive(Clone, Copy)]
pub struct ResetComplete<'a> {
    pub cells: Cells<'a>,
}

#[derive(Clone, Copy)]
pub enum Answer<'a> {
    WriteReplaceComplete(WriteReplaceComplete<'a>),
    WriteReplaceFailure(WriteReplaceFailure<'a>),
    KillComplete(KillComplete<'a>),
    KillFailure(KillFailure<'a>),
    MessageStatusQueryComplete(StatusComplete<'a>),
    MessageStatusQueryFailure(StatusFailure<'a>),
    ResetComplete(ResetComplete<'a>),
    ResetFailure(ResetFailure<'a>),
    Restart(Restart<'a>),
    Failure(Failure<'a>),
    ErrorIndication(ErrorIndication),
    KeepAliveComplete,
}
