// A content filled with what a request says.
ghost use Rattle.std.specs.Prelude.{◌≡◌, ◌≤◌, length};
ghost use Rattle.answering.specs.Handled.{with_text};
ghost use Rattle.pages.specs.Pages.{pages_meant};
ghost use Rattle.table.specs.Storing.{stored};
ghost use Rattle.store.specs.Held.{texts_held};

use super::Store;
use pages::pages::Pages;
use table::storing::store;

impl Store {
    // The content in a slot, where the request has one, says what the request says.
    #[tactic(auto, using(crate::proofs::Filling::text_set))]
    pub(crate) fn fill(&mut self, slot: Option<u8>, coding: u8, pages: Pages<'_>)
        requires { length (pages_meant pages) ≤ 15 }
        ensures texts { texts_held self.new ≡ with_text slot (stored coding (pages_meant pages.entry)) (texts_held self.old) }
        ensures rows { self.new.rows ≡ self.old.rows }
        ensures cells { self.new.cells ≡ self.old.cells }
        ensures work { self.new.work ≡ self.old.work }
    {
        let Some(slot) = slot else {
            return;
        };
        if let Some(content) = self.contents.get_mut(usize::from(slot)) {
            store(content, coding, pages);
        }
    }
}
