// One call on a world: the link is looked for, the call is made, and the host's links are put in order.
ghost use Rattle.std.specs.Prelude.{◌≡◌, ℕ, List, length};
ghost use Rattle.controller.specs.Moments.{SpaceKept, Stepped, marks_by, meant, world_of};
ghost use Rattle.law.specs.Calls.Call.{announcing, losing, messaging, opening, period, returning, shutting};

use super::{Call, Report, World};
use crate::links::Link;
use crate::state::linking::{Announced, NotAnnounced};
use crate::state::message::Answered;
use elements::recovery::Recovery;
use site::Site;

impl<S: Site> World<S> {
    // Makes a call.
    pub fn step(&mut self, call: Call<'_>, marks: &mut [u8], space: &mut [u8]) -> Report
        ensures space { SpaceKept result space.old space.new }
        ensures marks { marks.new ≡ marks_by result (meant (length marks.old) (length space.old) call.entry) marks.old }
        ensures stepped { Stepped S.Site.model S.Site.steps (meant (length marks.old) (length space.old) call.entry) (world_of self.old) (world_of self.new) result space.new }
    {
        match call {
            Call::Open => self.open(),
            Call::Announce { link } => self.announce(link, space),
            Call::Message { link, octets } => self.message(link, octets, marks, space),
            Call::Period => self.period(),
            Call::Lose { link, cell } => self.lose(link, cell, space),
            Call::Restore {
                link,
                cell,
                recovery,
            } => self.restore(link, cell, recovery, space),
            Call::Shut { link } => self.shut(link),
        }
    }

    fn open(&mut self) -> Report
        ensures { (space : List ℕ) → Stepped S.Site.model S.Site.steps opening (world_of self.old) (world_of self.new) result space }
    {
        match self.table.open() {
            Ok(link) => {
                self.links.put(Link::Waiting(link));
                Report::Done(Answered {
                    len: 0,
                    fault: None,
                })
            }
            Err(refusal) => Report::Refused(refusal),
        }
    }

    #[tactic(auto, using(crate::proofs::Stepping::reacted_behind))]
    fn announce(&mut self, number: u16, space: &mut [u8]) -> Report
        ensures space { SpaceKept result space.old space.new }
        ensures stepped { Stepped S.Site.model S.Site.steps (announcing number (length space.old)) (world_of self.old) (world_of self.new) result space.new }
    {
        let Some(link) = self.links.take_waiting(number) else {
            return Report::NoLink;
        };
        match self.table.announce(link, space) {
            Ok(Announced { link, len }) => {
                self.links.put(Link::Open(link));
                Report::Done(Answered { len, fault: None })
            }
            Err(NotAnnounced { refusal, link }) => {
                self.links.put(Link::Waiting(link));
                Report::Refused(refusal)
            }
        }
    }

    #[tactic(auto, using(crate::proofs::Stepping::reacted_behind))]
    fn message(&mut self, number: u16, octets: &[u8], marks: &mut [u8], space: &mut [u8]) -> Report
        ensures space { SpaceKept result space.old space.new }
        ensures marks { marks.new ≡ marks_by result (messaging number octets.now (length marks.old) (length space.old)) marks.old }
        ensures stepped { Stepped S.Site.model S.Site.steps (messaging number octets.now (length marks.old) (length space.old)) (world_of self.old) (world_of self.new) result space.new }
    {
        let Some(link) = self.links.open_at(number) else {
            return Report::NoLink;
        };
        match self.table.message(&self.site, link, octets, marks, space) {
            Ok(answered) => Report::Done(answered),
            Err(refusal) => Report::Refused(refusal),
        }
    }

    fn period(&mut self) -> Report
        ensures { (space : List ℕ) → Stepped S.Site.model S.Site.steps period (world_of self.old) (world_of self.new) result space }
    {
        match self.table.period(&mut self.site) {
            Ok(()) => Report::Done(Answered {
                len: 0,
                fault: None,
            }),
            Err(refusal) => Report::Refused(refusal),
        }
    }

    #[tactic(auto, using(crate::proofs::Stepping::reacted_behind))]
    fn lose(&mut self, number: u16, cell: usize, space: &mut [u8]) -> Report
        ensures space { SpaceKept result space.old space.new }
        ensures stepped { Stepped S.Site.model S.Site.steps (losing number cell (length space.old)) (world_of self.old) (world_of self.new) result space.new }
    {
        let Some(link) = self.links.open_at(number) else {
            return Report::NoLink;
        };
        match self.table.lose(&mut self.site, link, cell, space) {
            Ok(len) => Report::Done(Answered { len, fault: None }),
            Err(refusal) => Report::Refused(refusal),
        }
    }

    #[tactic(auto, using(crate::proofs::Stepping::reacted_behind))]
    fn restore(&mut self, number: u16, cell: usize, recovery: Recovery, space: &mut [u8]) -> Report
        ensures space { SpaceKept result space.old space.new }
        ensures stepped { Stepped S.Site.model S.Site.steps (returning number cell recovery (length space.old)) (world_of self.old) (world_of self.new) result space.new }
    {
        let Some(link) = self.links.open_at(number) else {
            return Report::NoLink;
        };
        match self
            .table
            .restore(&mut self.site, link, cell, recovery, space)
        {
            Ok(len) => Report::Done(Answered { len, fault: None }),
            Err(refusal) => Report::Refused(refusal),
        }
    }

    fn shut(&mut self, number: u16) -> Report
        ensures { (space : List ℕ) → Stepped S.Site.model S.Site.steps (shutting number) (world_of self.old) (world_of self.new) result space }
    {
        let Some(link) = self.links.take(number) else {
            return Report::NoLink;
        };
        self.table.shut(link);
        Report::Done(Answered {
            len: 0,
            fault: None,
        })
    }
}
