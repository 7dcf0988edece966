// Opening, announcing and shutting.
ghost use Rattle.std.specs.Prelude.{◌≡◌, ◌+◌, ◌≤◌, ℕ, Bool, [], length, IfErr, IfOk, None};
ghost use Rattle.controller.specs.Answers.{Answers, Passed, Reacted};
ghost use Rattle.controller.specs.Answers.Came.{accepted};
ghost use Rattle.controller.specs.Held.{state_of};
ghost use Rattle.controller.specs.Links.{link_number, open_number, waiting_number};
ghost use Rattle.controller.specs.Results.{came_announcing, came_opening};
ghost use Rattle.law.specs.Calls.{reaction, recovery_of, refusal_of};
ghost use Rattle.law.specs.Calls.Call.{announcing, opening, shutting};

use super::Table;
use super::checks::check_space;
use crate::links::{Link, OpenLink, WaitingLink};
use answering::replying::restart_for;
use answering::sending::send;
use cbsp::refusal::Refusal;
use elements::recovery::Recovery;

// The link over which messages may come, and how many octets RESTART has.
pub struct Announced {
    pub link: OpenLink,
    pub len: usize,
}

// Why the table is not announced, and the link, which may be announced again.
pub struct NotAnnounced {
    pub refusal: Refusal,
    pub link: WaitingLink,
}

impl Table {
    // Makes every earlier link stale. The table is then not announced.
    pub fn open(&mut self) -> Result<WaitingLink, Refusal>
        ensures answers { (opened : ℕ → Bool) → Answers opening opened (state_of self.old) (state_of self.new) [] [] (came_opening result) }
        ensures number { IfOk result (λ link. waiting_number link ≡ (state_of self.new).openings) }
    {
        let Some(number) = self.openings.checked_add(1) else {
            return Err(Refusal::OpeningsUsedUp);
        };
        self.openings = number;
        self.announced = false;
        Ok(WaitingLink::new(number))
    }

    // Writes RESTART for all cells. Their messages are lost where the table was never announced before.
    pub fn announce(
        &mut self,
        link: WaitingLink,
        space: &mut [u8],
    ) -> Result<Announced, NotAnnounced>
        ensures answers { (opened : ℕ → Bool) → Answers (announcing (waiting_number link) (length space.old)) opened (state_of self.old) (state_of self.new) space.old space.new (came_announcing result) }
        ensures link { IfOk result (λ a. open_number a.link ≡ waiting_number link) }
        ensures given_back { IfErr result (λ e. e.link ≡ link) }
    {
        match self.check_announcing(&link, space) {
            Err(refusal) => Err(NotAnnounced { refusal, link }),
            Ok(()) => {
                let len = self.restart(space);
                let link = link.announced();
                Ok(Announced { link, len })
            }
        }
    }

    // Uses the link up. Where it is the current one, the table is not announced any more.
    pub fn shut(&mut self, link: Link)
        ensures { (opened : ℕ → Bool) → Answers (shutting (link_number link)) opened (state_of self.old) (state_of self.new) [] [] (accepted 0 None) }
    {
        if self.is_current(link.shut()) {
            self.announced = false;
        }
    }

    fn check_announcing(&self, link: &WaitingLink, space: &[u8]) -> Result<(), Refusal>
        ensures passed { (opened : ℕ → Bool) → Passed (refusal_of (announcing (waiting_number link.now) (length space.now)) (state_of self.now) opened) result }
        ensures room { IfOk result (λ _. 2048 ≤ length space.now) }
    {
        check_space(space)?;
        if !self.is_current(link.number()) {
            return Err(Refusal::LinkNotCurrent);
        }
        Ok(())
    }

    // The table is announced: RESTART for all cells goes out.
    #[tactic(auto, using(crate::proofs::Cells::restart_spelt))]
    fn restart(&mut self, space: &mut [u8]) -> usize
        requires { 2048 ≤ length space.old }
        ensures { (n k : ℕ) (opened : ℕ → Bool) → Reacted (reaction (announcing n k) (state_of self.old) opened) result (state_of self.new) space.old space.new }
    {
        let reply = restart_for(self.store.entries(), self.recovery());
        let len = send(space, reply);
        self.announced = true;
        self.ever = true;
        len
    }

    // What RESTART for all cells says of their messages.
    fn recovery(&self) -> Recovery
        ensures { result ≡ recovery_of (state_of self.now).ever }
    {
        if self.ever {
            Recovery::Available
        } else {
            Recovery::Lost
        }
    }
}
