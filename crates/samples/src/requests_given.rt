// The five requests.
use crate::entries_given::{ONE_CI, TWO_AREAS, TWO_CELLS, many_cells};
use crate::line::show;
use crate::pages_given::{many_pages, page};
use cbsp::channel::Channel;
use elements::category::Category;
use lists::cells::Cells;
use lists::entries::Entries;
use messages::message::Message;
use pages::page::Page;
use pages::pages::Pages;
use requests::request::{KeepAlive, Reference, Request, Reset, WriteReplace};
use std::io;

fn show_short(rt: &impl Print, pages: &[Page]) -> io::Result<()> {
    let message = WriteReplace {
        identifier: 0x0032,
        new_serial: 0x1010,
        old_serial: None,
        cells: Cells::All,
        channel: Channel::Basic,
        category: Category::Normal,
        period: 10,
        broadcasts: 0,
        coding: 0x44,
        pages: Pages::Given(pages),
    };
    show(
        rt,
        "write-replace",
        Message::Request(Request::WriteReplace(message)),
    )
}

fn show_long(rt: &impl Print) -> io::Result<()> {
    let cells = many_cells();
    let pages = many_pages();
    let message = WriteReplace {
        identifier: 0x0433,
        new_serial: 0xc12f,
        old_serial: Some(0xc12e),
        cells: Cells::Named(Entries::Given(&cells)),
        channel: Channel::Extended,
        category: Category::HighPriority,
        period: 4095,
        broadcasts: 65535,
        coding: 0x44,
        pages: Pages::Given(&pages),
    };
    show(
        rt,
        "write-replace long",
        Message::Request(Request::WriteReplace(message)),
    )
}

fn show_reference(rt: &impl Print) -> io::Result<()> {
    let kill = Reference {
        identifier: 0x0032,
        serial: 0x1010,
        cells: Cells::Named(Entries::Given(&ONE_CI)),
        channel: Channel::Basic,
    };
    show(rt, "kill", Message::Request(Request::Kill(kill)))?;
    let query = Reference {
        identifier: 0x0433,
        serial: 0x5678,
        cells: Cells::Named(Entries::Given(&TWO_AREAS)),
        channel: Channel::Extended,
    };
    show(
        rt,
        "message status query",
        Message::Request(Request::MessageStatusQuery(query)),
    )
}

pub fn show_requests(rt: &impl Print) -> io::Result<()> {
    show_short(rt, &[page(b"Road closed until noon")])?;
    show_long(rt)?;
    show_reference(rt)?;
    let all = Reset { cells: Cells::All };
    show(rt, "reset", Message::Request(Request::Reset(all)))?;
    let two = Reset {
        cells: Cells::Named(Entries::Given(&TWO_CELLS)),
    };
    show(rt, "reset two", Message::Request(Request::Reset(two)))?;
    show(
        rt,
        "keep-alive",
        Message::Request(Request::KeepAlive(KeepAlive { period: 38 })),
    )
}
