// The five requests. Lists and pages stay where they stand in the octets, or in the caller's slices. No Eq for
// those with lists or pages: two views of the same entries may lie in different octets.
use cbsp::channel::Channel;
use elements::category::Category;
use lists::cells::Cells;
use pages::pages::Pages;

// WRITE-REPLACE: broadcasts a message in some cells, in the place of an old one where there is one.
#[derive(Clone, Copy)]
pub struct WriteReplace<'a> {
    pub identifier: u16,
    pub new_serial: u16,
    pub old_serial: Option<u16>,
    pub cells: Cells<'a>,
    pub channel: Channel,
    pub category: Category,
    pub period: u16,
    pub broadcasts: u16,
    pub coding: u8,
    pub pages: Pages<'a>,
}

// KILL ends a message in some cells, MESSAGE STATUS QUERY asks for its count: both name it alike.
#[derive(Clone, Copy)]
pub struct Reference<'a> {
    pub identifier: u16,
    pub serial: u16,
    pub cells: Cells<'a>,
    pub channel: Channel,
}

// RESET ends every message in some cells.
#[derive(Clone, Copy)]
pub struct Reset<'a> {
    pub cells: Cells<'a>,
}

// KEEP-ALIVE: the code of the time within which the next one comes.
#[derive(Clone, Copy, PartialEq, Eq, Debug)]
pub struct KeepAlive {
    // an octet, no enum: 38 cases would have no more to say than their number in the table of seconds
    pub period: u8,
}

#[derive(Clone, Copy)]
pub enum Request<'a> {
    WriteReplace(WriteReplace<'a>),
    Kill(Reference<'a>),
    MessageStatusQuery(Reference<'a>),
    Reset(Reset<'a>),
    KeepAlive(KeepAlive),
}
