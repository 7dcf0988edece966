// Whether pages can be spelt.
ghost use Rattle.std.specs.Prelude.{◌≡◌};
ghost use Rattle.pages.specs.Pages.{page_count, pages_meant};

use crate::content::MessageContent;
use crate::pages::Pages;
use cbsp::limits::MOST_PAGES;
use elements::element::Element;

// How many pages there are, nothing where there is none, there are more than fifteen, or one is out of range.
// How many is asked first: of pages past the limit none is looked at.
pub fn page_count(pages: Pages<'_>) -> Option<usize>
    ensures { result ≡ page_count (pages_meant pages.entry) }
{
    let count = pages.len();
    if !(1..=MOST_PAGES).contains(&count) {
        return None;
    }
    let mut rest = pages;
    if !rest.all(|page| MessageContent::width(page).is_some()) {
        return None;
    }
    Some(count)
}
