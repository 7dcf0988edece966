// The loss of a cell, and its return.
ghost use Rattle.std.specs.Prelude.{◌≡◌, ◌≤◌, [], ◌∷◌, IfOk, length};
ghost use Rattle.answering.specs.Fitting.{Sent};
ghost use Rattle.answering.specs.Replies.{entry_of, failure_of, restart_for};
ghost use Rattle.cbsp.specs.declared.refusal.Refusal.TheVariants.{CellAlreadySo};
ghost use Rattle.cells.specs.File.{identities};
ghost use Rattle.elements.specs.declared.cause.Cause.TheVariants.{CellBroadcastNotOperational};
ghost use Rattle.lists.specs.Kinds.{failed_meant};
ghost use Rattle.replies.specs.Lists.{identity_of};
ghost use Rattle.controller.specs.Answers.{Answers, Passed};
ghost use Rattle.controller.specs.Held.{state_of};
ghost use Rattle.controller.specs.Links.{open_number};
ghost use Rattle.controller.specs.Results.{came_switching};
ghost use Rattle.controller.specs.Sites.{Moved};
ghost use Rattle.law.specs.Calls.{emptied_at, first_refusal, no_cell, no_space, not_open};
ghost use Rattle.law.specs.State.{with_rows};
ghost use Rattle.law.specs.Calls.Call.{losing, returning};

use super::Table;
use super::checks::check_space;
use crate::links::OpenLink;
use answering::replying::{failure_for, restart_for};
use answering::sending::send;
use cbsp::refusal::Refusal;
use cells::cell::Cell;
use elements::cause::Cause;
use elements::recovery::Recovery;
use lists::kinds::{CellEntry, FailedEntry};
use replies::identity::identity_of;
use site::Site;

impl Table {
    // Closes a cell at the site and writes FAILURE. Its messages stand as they were.
    pub fn lose<S: Site>(
        &self,
        site: &mut S,
        link: &OpenLink,
        cell: usize,
        space: &mut [u8],
    ) -> Result<usize, Refusal>
        ensures answers { Answers (losing (open_number link.now) cell (length space.old)) (S.Site.model site.old).opened (state_of self.now) (state_of self.now) space.old space.new (came_switching result) }
        ensures site { Moved S.Site.model S.Site.steps (losing (open_number link.now) cell (length space.old)) site.old site.new (came_switching result) }
    {
        let already = !site.is_open(cell);
        let found = self.check_switching(link, cell, already, space)?;
        site.close(cell);
        Ok(tell_failure(found, space))
    }

    // Opens a cell at the site and writes RESTART. Where its messages are lost, none stands there any more.
    pub fn restore<S: Site>(
        &mut self,
        site: &mut S,
        link: &OpenLink,
        cell: usize,
        recovery: Recovery,
        space: &mut [u8],
    ) -> Result<usize, Refusal>
        ensures answers { Answers (returning (open_number link.now) cell recovery (length space.old)) (S.Site.model site.old).opened (state_of self.old) (state_of self.new) space.old space.new (came_switching result) }
        ensures site { Moved S.Site.model S.Site.steps (returning (open_number link.now) cell recovery (length space.old)) site.old site.new (came_switching result) }
    {
        let already = site.is_open(cell);
        let found = self.check_switching(link, cell, already, space)?;
        site.open(cell);
        self.recover(cell, recovery);
        Ok(tell_restart(found, recovery, space))
    }

    // The cell, where it may change.
    fn check_switching(
        &self,
        link: &OpenLink,
        cell: usize,
        already: bool,
        space: &[u8],
    ) -> Result<Cell, Refusal>
        ensures passed { Passed (first_refusal (no_space (length space.now) ∷ not_open (open_number link.now) (state_of self.now) ∷ no_cell cell (state_of self.now) ∷ (already, CellAlreadySo) ∷ [])) result }
        ensures identity { IfOk result (λ found. found.identity ≡ identities (state_of self.now).cells cell) }
        ensures room { IfOk result (λ _. 2048 ≤ length space.now) }
    {
        check_space(space)?;
        self.check_open(link)?;
        let found = self.cell_at(cell)?;
        if already {
            return Err(Refusal::CellAlreadySo);
        }
        Ok(found)
    }

    // Empties the cell where its messages are lost.
    fn recover(&mut self, cell: usize, recovery: Recovery)
        ensures { state_of self.new ≡ with_rows (state_of self.old) (emptied_at recovery cell (state_of self.old).rows) (state_of self.old).texts }
    {
        match recovery {
            Recovery::Available => {}
            Recovery::Lost => self.store.empty(cell),
        }
    }
}

// Writes FAILURE for a cell that does not broadcast.
fn tell_failure(cell: Cell, space: &mut [u8]) -> usize
    requires { 2048 ≤ length space.old }
    ensures { Sent (failure_of (failed_meant (record { cell = identity_of cell; cause = CellBroadcastNotOperational }) ∷ [])) result space.old space.new }
{
    let failed = [FailedEntry {
        cell: identity_of(&cell),
        cause: Cause::CellBroadcastNotOperational,
    }];
    send(space, failure_for(&failed))
}

// Writes RESTART for a cell.
#[tactic(auto, using(crate::proofs::Cells::one_restart_spelt))]
fn tell_restart(cell: Cell, recovery: Recovery, space: &mut [u8]) -> usize
    requires { 2048 ≤ length space.old }
    ensures { Sent (restart_for (entry_of cell ∷ []) recovery) result space.old space.new }
{
    let restarted = [CellEntry {
        cell: identity_of(&cell),
    }];
    send(space, restart_for(&restarted, recovery))
}
