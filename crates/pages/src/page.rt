// A page: how many octets of it are user information, and the content with its filling.
ghost use Rattle.std.specs.Prelude.{◌≡◌, ◌+◌, ◌≤◌, length};
ghost use Rattle.pages.specs.Pages.{page_at};

use cbsp::limits;

pub const PAGE_CONTENT: usize = limits::PAGE_CONTENT;

// How many of them are in use, and the content.
pub(crate) const PAGE_BODY: usize = 1 + PAGE_CONTENT;

// The identifier of the element, and that.
pub(crate) const PAGE_ELEMENT: usize = 1 + PAGE_BODY;

#[derive(Clone, Copy, PartialEq, Eq, Debug)]
pub struct Page {
    pub used: u8,
    // all 82 octets, also the filling: what is read is written back to the same octets
    pub content: [u8; PAGE_CONTENT],
}

// The page whose length stands at a place. No From of an array, and the content copied by its places: the check
// does not cover a pattern that takes an array out of another.
pub(crate) fn page_at(octets: &[u8], body: usize) -> Page
    requires { body + 83 ≤ length octets.now }
    ensures { result ≡ page_at octets.now body }
{
    let used = octets[body];
    let mut content = [0; PAGE_CONTENT];
    content.copy_from_slice(&octets[body + 1..body + PAGE_BODY]);
    Page { used, content }
}
