// Pages that are still to be given, one after the other.
ghost use Rattle.std.specs.Prelude.{◌≡◌, length};
ghost use Rattle.std.specs.Iterator.{YieldsFirst, item_count};
ghost use Rattle.pages.specs.Pages.{pages_meant};

use crate::page::{PAGE_ELEMENT, Page, page_at};

// Whole elements of a message, or a slice of pages. No Entries: pages have one width, so that
// those of a message are a slice of arrays, and only an entry needs a reader.
#[derive(Clone, Copy)]
pub enum Pages<'a> {
    Read(&'a [[u8; PAGE_ELEMENT]]),
    Given(&'a [Page]),
}

impl Pages<'_> {
    // How many are still to be given, without a look at any.
    pub(crate) fn len(&self) -> usize
        ensures { result ≡ length (pages_meant self.now) }
    {
        match self {
            Pages::Read(elements) => elements.len(),
            Pages::Given(pages) => pages.len(),
        }
    }
}

impl Iterator for Pages<'_> {
    type Item = Page;

    ghost next_gives = { YieldsFirst pages_meant };

    ghost remaining = { item_count pages_meant };

    fn next(&mut self) -> Option<Page> {
        match self {
            Pages::Read(elements) => {
                let (first, others) = elements.split_first()?;
                *elements = others;
                Some(page_at(first, 1))
            }
            Pages::Given(pages) => {
                let (first, others) = pages.split_first()?;
                *pages = others;
                Some(*first)
            }
        }
    }
}
