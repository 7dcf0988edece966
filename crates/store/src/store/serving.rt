// A period of all cells, and one cell emptied.
ghost use Rattle.std.specs.Prelude.{◌≡◌, ◌^◌, ◌<◌, [], slice_set};
ghost use Rattle.std.specs.List.{AllByRecursion};
ghost use Rattle.rows.specs.Sweep.{Served};
ghost use Rattle.store.specs.Answered.{Kept};
ghost use Rattle.store.specs.Held.{rows_held, texts_held};

use super::Store;
use rows::sweep::serve_all;
use site::Site;

impl Store {
    // The messages of all cells in a period that has started at the site.
    pub fn serve<S: Site>(&mut self, site: &mut S)
        requires { AllByRecursion (λ rs. AllByRecursion (λ r. r.count < 2 ^ 63) rs) (rows_held self.old) }
        ensures served { Served S.Site.model S.Site.steps (texts_held self.old) (rows_held self.old) site.old (rows_held self.new) site.new }
        ensures kept { Kept self.old self.new }
    {
        serve_all(self.rows.as_mut_slice(), self.contents.as_slice(), site);
    }

    // No message stands in the cell any more.
    #[tactic(auto, using(crate::proofs::Emptying::emptied_at))]
    pub fn empty(&mut self, cell: usize)
        ensures rows { rows_held self.new ≡ slice_set (rows_held self.old) cell [] }
        ensures kept { Kept self.old self.new }
    {
        if let Some(rows) = self.rows.get_mut(cell) {
            rows.clear();
        }
    }
}
