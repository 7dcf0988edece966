// What the tests share: two cells with their messages, and requests for them.
use cbsp::channel::Channel;
use lists::cell::CellIdentity;
use lists::kinds::CellEntry;
use rows::key::Key;
use rows::rows::Rows;
use std::alloc::{AllocError, Global};
use table::asked::Asked;
use table::write::Write;

pub fn two_cells(heap: Global) -> Result<Vec<Rows>, AllocError> {
    let mut rows = Vec::new(heap);
    rows.push(Rows::new(heap)?)?;
    rows.push(Rows::new(heap)?)?;
    Ok(rows)
}

pub fn by_ci(ci: u16) -> CellEntry {
    CellEntry {
        cell: CellIdentity::Ci(ci),
    }
}

pub fn write_of(channel: Channel, serial: u16, old: Option<u16>) -> Write {
    let asked = Asked {
        channel,
        identifier: 50,
        serial,
        old,
        period: 1,
        requested: 0,
    };
    Write { asked, slot: None }
}

pub fn key_of(serial: u16) -> Key {
    Key::new(Channel::Basic, 50, serial)
}
