// The calls of a host over any site: a link, messages that come before, and rounds.
use crate::making::table_of;
use crate::sums::Sums;
use cbsp::framing::LONGEST;
use cells::file::MOST_CELLS;
use controller::links::held::HeldLinks;
use controller::world::{Call, Report, World};
use recordings::recording::{Parts, file_end};
use site::Site;
use std::alloc::{AllocError, Global};

// The link of the first opening, and places for links up to it.
const LINK: u16 = 1;

const LINKS: usize = 2;

// What each round has: messages, and periods after them.
#[derive(Clone, Copy)]
pub(crate) struct Round<'a> {
    pub(crate) messages: &'a [u8],
    pub(crate) periods: u32,
}

// A controller, what the host lends to its calls, and what came of them.
pub(crate) struct Run<S> {
    world: World<S>,
    marks: [u8; MOST_CELLS],
    space: [u8; LONGEST],
    sums: Sums,
}

impl<S: Site + Drop> Run<S> {
    // A table over the cells of a recording, announced, that has taken the messages of the recording.
    pub(crate) fn new(heap: Global, site: S, recording: &[u8]) -> Result<Run<S>, AllocError> {
        let (file, before) = recording.split_at(file_end(recording));
        let mut run = Run {
            world: World {
                table: table_of(heap, file)?,
                site,
                links: HeldLinks::new(heap, LINKS)?,
            },
            marks: [0; MOST_CELLS],
            space: [0; LONGEST],
            sums: Sums::new(),
        };
        run.call(Call::Open);
        run.call(Call::Announce { link: LINK });
        run.send_all(before);
        Ok(run)
    }

    fn call(&mut self, call: Call<'_>) -> Report {
        let report = self.world.step(call, &mut self.marks, &mut self.space);
        self.sums.add(report, self.space[0]);
        report
    }

    fn send(&mut self, octets: &[u8]) -> Report {
        self.call(Call::Message { link: LINK, octets })
    }

    fn send_all(&mut self, messages: &[u8]) {
        let parts = Parts {
            offset: 0,
            rest: messages,
        };
        for part in parts {
            self.send(part.octets);
        }
    }

    fn go_round(&mut self, round: Round<'_>) {
        self.send_all(round.messages);
        for _ in 0..round.periods {
            self.call(Call::Period);
        }
    }

    // So many rounds, and the sums of these alone.
    pub(crate) fn go(&mut self, round: Round<'_>, rounds: u32) -> Sums {
        self.sums = Sums::new();
        for _ in 0..rounds {
            self.go_round(round);
        }
        self.sums.count(&self.world.site);
        self.sums
    }

    // The replies to messages, one behind the other in `out` as far as there is room; answers how many octets they have.
    pub(crate) fn reply_all(&mut self, messages: &[u8], out: &mut [u8]) -> usize {
        let parts = Parts {
            offset: 0,
            rest: messages,
        };
        let mut at: usize = 0;
        for part in parts {
            let len = self.send(part.octets).len().min(LONGEST);
            let end = at.saturating_add(len);
            if let Some(place) = out.get_mut(at..end) {
                place.copy_from_slice(&self.space[..len]);
            }
            at = end;
        }
        at
    }

    pub(crate) fn end(self) {
        let Run {
            world,
            marks: _,
            space: _,
            sums: _,
        } = self;
        let World {
            table: _,
            site: _,
            links,
        } = world;
        links.end();
    }
}
