// Adding and taking messages of a cell.
ghost use Rattle.std.specs.Prelude.{◌≡◌, ◌^◌, ◌<◌, ◌≤◌, [], ◌∷◌, ◌++◌, Ok, Err, map, length, IfOk, if◌then◌else◌, nat_lt};
ghost use Rattle.std.specs.List.{AllByRecursion};
ghost use Rattle.rows.specs.Held.{rows_of};
ghost use Rattle.rows.specs.Keys.{first_of, is_same, without};
ghost use Rattle.rows.specs.Sweep.{Turns};
ghost use Rattle.rows.specs.Texts.{text_of};

use super::Rows;
use crate::content::Content;
use crate::key::{Key, place_of};
use crate::row::Row;
use crate::sweep::serve;
use bounded::list::{Bounded, Full};
use site::Site;
use std::alloc::{AllocError, Global};

impl Rows {
    pub fn new(heap: Global) -> Result<Rows, AllocError>
        ensures { IfOk result (λ rows. rows_of rows ≡ []) }
    {
        let rows = Bounded::new(heap)?;
        Ok(Rows { rows })
    }

    pub fn as_slice(&self) -> &[Row]
        ensures value { result.now ≡ rows_of self.now }
        ensures few { length result.now ≤ 8 }
    {
        self.rows.as_slice()
    }

    // One message more, behind the others; where eight are there it is given back. It hands on, as others
    // here do: the list is private, and the clauses here read it by `rows_of`.
    pub fn push(&mut self, row: Row) -> Result<(), Full<Row>>
        ensures answer { result ≡ (if nat_lt (length (rows_of self.old)) 8 then Ok tt else Err (record { 0 = row })) }
        ensures after { rows_of self.new ≡ (if nat_lt (length (rows_of self.old)) 8 then rows_of self.old ++ row ∷ [] else rows_of self.old) }
    {
        self.rows.push(row)
    }

    // A push that cannot fail, since there is room.
    pub fn push_reserved(&mut self, row: Row)
        requires { length (rows_of self.old) < 8 }
        ensures { rows_of self.new ≡ rows_of self.old ++ row ∷ [] }
    {
        self.rows.push_reserved(row);
    }

    // Takes the first message that is the same out; the others keep their order.
    pub fn take(&mut self, key: Key) -> Option<Row>
        ensures value { result ≡ first_of (is_same key) (rows_of self.old) }
        ensures after { rows_of self.new ≡ without (is_same key) (rows_of self.old) }
    {
        let place = place_of(self.rows.as_slice(), key)?;
        Some(self.rows.remove(place))
    }

    pub fn clear(&mut self)
        ensures { rows_of self.new ≡ [] }
    {
        self.rows.clear();
    }

    // A period of the cell with that number. It hands on: the list is private, and the sweep is proved over a
    // slice.
    pub fn serve<S: Site>(&mut self, cell: usize, contents: &[Content], site: &mut S)
        requires { AllByRecursion (λ r. r.count < 2 ^ 63) (rows_of self.old) }
        ensures { Turns S.Site.model S.Site.steps (map text_of contents.now) cell (rows_of self.old) site.old (rows_of self.new) site.new }
    {
        serve(self.rows.as_mut_slice(), cell, contents, site);
    }
}
