// The search for a slot whose content no message broadcasts.
ghost use Rattle.std.specs.Prelude.{◌≡◌, ◌<◌, IfSome, map, length, slice_set};
ghost use Rattle.std.specs.List.{position};
ghost use Rattle.rows.specs.Held.{rows_of};
ghost use Rattle.table.specs.Pool.{PassedHoldNone, free_slot, holds, is_used, moved_on, none_passed};

use crate::write::{CONTENTS, SLOTS};
use rows::row::Row;
use rows::rows::Rows;

// What the looks of one request know: for each slot, how many cells, from the first on, do not hold it. While
// messages only end that stays so, and the looks together pass each cell once for each slot.
#[derive(Clone, Copy, PartialEq, Eq, Debug)]
pub struct Search {
    passed: [usize; CONTENTS],
}

fn is_held(rows: &[Row], slot: u8) -> bool
    ensures { result ≡ holds slot rows.now }
{
    rows.iter().any(|row| row.slot == slot)
}

// The first cell that holds the slot.
fn holder(cells: &[Rows], slot: u8) -> Option<usize>
    ensures value { result ≡ position (holds slot) (map rows_of cells.now) }
    ensures within { IfSome result (λ k. k < length cells.now) }
{
    cells.iter().position(|cell| is_held(cell.as_slice(), slot))
}

impl Search {
    // No cell was passed.
    pub(crate) fn new() -> Search
        ensures { result.passed ≡ none_passed }
    {
        Search {
            passed: [0; CONTENTS],
        }
    }

    // Whether a cell holds the slot: the look goes on where the last one for it ended.
    fn is_used(&mut self, cells: &[Rows], slot: u8) -> bool
        requires below { slot < 32 }
        requires passed { PassedHoldNone self.old.passed (map rows_of cells.now) }
        ensures value { result ≡ is_used (map rows_of cells.now) slot }
        ensures passed { PassedHoldNone self.new.passed (map rows_of cells.now) }
        ensures moved { self.new.passed ≡ moved_on self.old.passed (map rows_of cells.now) slot }
    {
        let place = usize::from(slot);
        let from = self.passed[place];
        let Some(further) = holder(&cells[from..], slot) else {
            return false;
        };
        self.passed[place] = from + further;
        true
    }

    // The lowest slot that is free, nothing where all are in use.
    pub(crate) fn free_slot(&mut self, cells: &[Rows]) -> Option<u8>
        requires { PassedHoldNone self.old.passed (map rows_of cells.now) }
        ensures value { result ≡ free_slot (map rows_of cells.now) }
        ensures passed { PassedHoldNone self.new.passed (map rows_of cells.now) }
    {
        for slot in 0..SLOTS {
            if !self.is_used(cells, slot) {
                return Some(slot);
            }
        }
        None
    }

    // A message begins with the slot, in whatever cell.
    #[tactic(auto, using(std::proofs::lemmas::List::set_past))]
    pub(crate) fn restart(&mut self, slot: u8)
        ensures { self.new.passed ≡ slice_set self.old.passed slot 0 }
    {
        let place = usize::from(slot);
        if place < CONTENTS {
            self.passed[place] = 0;
        }
    }
}
