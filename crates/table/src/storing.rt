// A content filled with what a request says.
ghost use Rattle.std.specs.Prelude.{◌≡◌, ◌≤◌, length};
ghost use Rattle.pages.specs.Pages.{pages_meant};
ghost use Rattle.rows.specs.Texts.{text_of};
ghost use Rattle.table.specs.Storing.{on_air, stored};

use pages::page::Page as WirePage;
use pages::pages::Pages;
use rows::content::Content;
use site::message::Page;

// A page as it goes on the air. No From: neither type is of this crate.
fn on_air(page: &WirePage) -> Page
    ensures { result ≡ on_air page.now }
{
    let content = page.content;
    Page { content }
}

// The data coding scheme and the pages, in place of what the content said.
pub fn store(content: &mut Content, coding: u8, pages: Pages<'_>)
    requires { length (pages_meant pages) ≤ 15 }
    ensures { text_of content.new ≡ stored coding (pages_meant pages.entry) }
{
    content.restart(coding);
    for page in pages {
        content.push_reserved(on_air(&page));
    }
}
