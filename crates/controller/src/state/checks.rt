// The conditions of refusals, in the order of their numbers.
ghost use Rattle.std.specs.Prelude.{◌≡◌, ◌≤◌, [], ◌∷◌, length, not, IfOk};
ghost use Rattle.controller.specs.Answers.{Passed};
ghost use Rattle.controller.specs.Held.{state_of};
ghost use Rattle.controller.specs.Links.{open_number};
ghost use Rattle.cells.specs.File.{identities};
ghost use Rattle.law.specs.Calls.{first_refusal, is_stale, no_cell, no_space, not_open};

use super::Table;
use crate::links::OpenLink;
use cbsp::framing::LONGEST;
use cbsp::refusal::Refusal;
use cells::cell::Cell;

pub(crate) fn check_space(space: &[u8]) -> Result<(), Refusal>
    ensures passed { Passed (first_refusal (no_space (length space.now) ∷ [])) result }
    ensures room { IfOk result (λ _. 2048 ≤ length space.now) }
{
    if space.len() < LONGEST {
        return Err(Refusal::ReplySpaceTooSmall);
    }
    Ok(())
}

impl Table {
    pub(crate) fn is_current(&self, number: u16) -> bool
        ensures { result ≡ not (is_stale number (state_of self.now)) }
    {
        number == self.openings
    }

    // Whether messages, losses and returns may come over the link.
    pub(crate) fn check_open(&self, link: &OpenLink) -> Result<(), Refusal>
        ensures { Passed (first_refusal (not_open (open_number link.now) (state_of self.now) ∷ [])) result }
    {
        if !self.is_current(link.number()) || !self.announced {
            return Err(Refusal::LinkNotCurrent);
        }
        Ok(())
    }

    pub(crate) fn cell_at(&self, cell: usize) -> Result<Cell, Refusal>
        ensures passed { Passed (first_refusal (no_cell cell (state_of self.now) ∷ [])) result }
        ensures identity { IfOk result (λ found. found.identity ≡ identities (state_of self.now).cells cell) }
    {
        match self.store.cells().get(cell) {
            Some(found) => Ok(*found),
            None => Err(Refusal::NoSuchCell),
        }
    }
}
