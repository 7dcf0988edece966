// The parts of the step.
ghost use Rattle.std.specs.Prelude.{◌≡◌, ◌<◌, Some, map, length};
ghost use Rattle.rows.specs.Held.{rows_of};
ghost use Rattle.table.specs.AtCell.{rows_at, with_rows};
ghost use Rattle.table.specs.Pool.{PassedHoldNone};
ghost use Rattle.table.specs.Write.{barred, blocked, cut, ended_by, has_channel, key_in, lacks, row_of, slot_for, supports, unless};

use crate::asked::Asked;
use crate::at_cell::take_at;
use crate::pool::Search;
use cbsp::channel::Channel;
use cells::cell::Capability;
use elements::cause::Cause;
use rows::key::{Key, first_of};
use rows::row::Row;
use rows::rows::{MOST_ROWS, Rows};

fn has_channel(capability: Capability) -> bool
    ensures { result ≡ has_channel capability }
{
    capability != Capability::NoChannel
}

fn is_supported(capability: Capability, channel: Channel) -> bool
    ensures { result ≡ supports capability channel }
{
    match (capability, channel) {
        (Capability::NoChannel, _) => false,
        (Capability::BasicOnly, Channel::Basic) => true,
        (Capability::BasicOnly, Channel::Extended) => false,
        (Capability::BothChannels, _) => true,
    }
}

// The request's own slot, else one that is free.
pub(crate) fn slot_for(rows: &[Rows], search: &mut Search, slot: Option<u8>) -> Option<u8>
    requires { PassedHoldNone search.old.passed (map rows_of rows.now) }
    ensures value { result ≡ slot_for (map rows_of rows.now) slot }
    ensures passed { PassedHoldNone search.new.passed (map rows_of rows.now) }
{
    match slot {
        Some(_) => slot,
        None => search.free_slot(rows),
    }
}

impl Asked {
    fn key_in(&self, serial: u16) -> Key
        ensures { result ≡ key_in self.now serial }
    {
        Key::new(self.channel, self.identifier, serial)
    }

    // The message that begins.
    pub(crate) fn row_of(&self, slot: u8) -> Row
        ensures { result ≡ row_of self.now slot }
    {
        Row {
            channel: self.channel,
            identifier: self.identifier,
            serial: self.serial,
            period: self.period,
            requested: self.requested,
            count: 0,
            wait: 0,
            slot,
        }
    }

    fn is_old_absent(&self, rows: &[Row]) -> bool
        ensures { result ≡ lacks self.now self.now.old rows.now }
    {
        self.old
            .is_some_and(|serial| first_of(rows, self.key_in(serial)).is_none())
    }

    // Why nothing is done in a cell, if there is a reason.
    pub(crate) fn bar(
        &self,
        capability: Capability,
        opened: bool,
        rows: &[Row],
    ) -> Result<(), Cause>
        ensures { result ≡ unless (barred self.now capability opened rows.now) tt }
    {
        if !has_channel(capability) {
            return Err(Cause::CellBroadcastNotSupported);
        }
        if !is_supported(capability, self.channel) {
            return Err(Cause::ExtendedChannelNotSupported);
        }
        if !opened {
            return Err(Cause::CellBroadcastNotOperational);
        }
        if self.is_old_absent(rows) {
            return Err(Cause::MessageReferenceNotIdentified);
        }
        Ok(())
    }

    // Ends the old message, if one was given: its count, if it was there.
    pub(crate) fn end_old(&self, rows: &mut [Rows], cell: usize) -> Option<u64>
        requires { cell < length rows.old }
        ensures value { result ≡ ended_by self.now self.now.old (rows_at rows.old cell) }
        ensures after { map rows_of rows.new ≡ with_rows rows.old cell (cut self.now self.now.old (rows_at rows.old cell)) }
    {
        let key = self.key_in(self.old?);
        let row = take_at(rows, cell, key)?;
        Some(row.count)
    }

    // Why the new message does not begin in a cell, wherever its content were kept.
    pub(crate) fn block(&self, rows: &[Row]) -> Result<(), Cause>
        ensures { result ≡ unless (blocked self.now rows.now (Some 0)) tt }
    {
        if first_of(rows, self.key_in(self.serial)).is_some() {
            return Err(Cause::MessageReferenceAlreadyUsed);
        }
        if rows.len() >= MOST_ROWS {
            return Err(Cause::CellMemoryExceeded);
        }
        Ok(())
    }
}
