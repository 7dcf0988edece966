// The requests that name cells, each answered into the host's space. The marks are clear after it. Four functions, not one
// over a trait of requests: that would have a type, three methods and two laws for each request, where four calls stand here.
ghost use Rattle.std.specs.Prelude.{◌≡◌, ◌≤◌, true, length};
ghost use Rattle.answering.specs.Handled.{asked_by, key_by};
ghost use Rattle.lists.specs.CellLists.{cells_fit};
ghost use Rattle.requests.specs.Requests.{reference, reference_meant, reset_meant, write_meant, writing};
ghost use Rattle.store.specs.Answered.{Killed, Queried, Replaced, WasReset};

use super::Store;
use answering::replying::{kill_reply, query_reply, reset_reply, write_reply};
use answering::sending::send;
use cells::file::MOST_CELLS;
use requests::request::{Reference, Reset as ResetList, WriteReplace};
use rows::key::Key;
use site::Site;
use table::asked::Asked;
use table::references::{Kill, Query, Reset};
use table::write::Write;

// No From for the two: neither type is of this crate.
fn key_by(request: Reference<'_>) -> Key
    ensures { result ≡ key_by (reference_meant request.entry) }
{
    Key::new(request.channel, request.identifier, request.serial)
}

fn asked_by(request: WriteReplace<'_>) -> Asked
    ensures { result ≡ asked_by (write_meant request.entry) }
{
    Asked {
        channel: request.channel,
        identifier: request.identifier,
        serial: request.new_serial,
        old: request.old_serial,
        period: request.period,
        requested: request.broadcasts,
    }
}

// Marks and space are two arguments in each: both are the host's own, with rules of their own.
impl Store {
    pub fn kill<S: Site>(
        &mut self,
        site: &S,
        request: Reference<'_>,
        marks: &mut [u8; MOST_CELLS],
        space: &mut [u8],
    ) -> usize
        requires room { 2048 ≤ length space.old }
        requires fits { reference.fits (reference_meant request) ≡ true }
        ensures { Killed self.old (S.Site.model site.now).opened (reference_meant request.entry) self.new result space.old space.new marks.new }
    {
        let key = key_by(request);
        self.handle(&mut Kill { key }, site, request.cells, marks);
        let reply = kill_reply(request, self.work.completed(), self.work.failed());
        send(space, reply)
    }

    pub fn query<S: Site>(
        &mut self,
        site: &S,
        request: Reference<'_>,
        marks: &mut [u8; MOST_CELLS],
        space: &mut [u8],
    ) -> usize
        requires room { 2048 ≤ length space.old }
        requires fits { reference.fits (reference_meant request) ≡ true }
        ensures { Queried self.old (S.Site.model site.now).opened (reference_meant request.entry) self.new result space.old space.new marks.new }
    {
        let key = key_by(request);
        self.handle(&mut Query { key }, site, request.cells, marks);
        let reply = query_reply(request, self.work.completed(), self.work.failed());
        send(space, reply)
    }

    pub fn reset<S: Site>(
        &mut self,
        site: &S,
        request: ResetList<'_>,
        marks: &mut [u8; MOST_CELLS],
        space: &mut [u8],
    ) -> usize
        requires room { 2048 ≤ length space.old }
        requires fits { cells_fit (reset_meant request) ≡ true }
        ensures { WasReset self.old (S.Site.model site.now).opened (reset_meant request.entry) self.new result space.old space.new marks.new }
    {
        self.handle(&mut Reset {}, site, request.cells, marks);
        let reply = reset_reply(self.work.begun(), self.work.failed());
        send(space, reply)
    }

    pub fn write<S: Site>(
        &mut self,
        site: &S,
        request: WriteReplace<'_>,
        marks: &mut [u8; MOST_CELLS],
        space: &mut [u8],
    ) -> usize
        requires room { 2048 ≤ length space.old }
        requires fits { writing.fits (write_meant request) ≡ true }
        ensures { Replaced self.old (S.Site.model site.now).opened (write_meant request.entry) self.new result space.old space.new marks.new }
    {
        let asked = asked_by(request);
        let mut write = Write { asked, slot: None };
        self.handle(&mut write, site, request.cells, marks);
        self.fill(write.slot, request.coding, request.pages);
        let reply = write_reply(
            request,
            self.work.begun(),
            self.work.completed(),
            self.work.failed(),
        );
        send(space, reply)
    }
}
