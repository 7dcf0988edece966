// Filling a content, and reading it.
ghost use Rattle.std.specs.Prelude.{◌≡◌, ◌<◌, ◌≤◌, [], ◌∷◌, ◌++◌, Ok, Err, length, IfOk, if◌then◌else◌, nat_lt};
ghost use Rattle.rows.specs.Texts.{no_text, text_of};

use super::Content;
use bounded::list::{Bounded, Full};
use site::message::Page;
use std::alloc::{AllocError, Global};

impl Content {
    pub fn new(heap: Global) -> Result<Content, AllocError>
        ensures { IfOk result (λ content. text_of content ≡ no_text) }
    {
        let pages = Bounded::new(heap)?;
        Ok(Content { coding: 0, pages })
    }

    pub fn coding(&self) -> u8
        ensures { result ≡ (text_of self.now).coding }
    {
        self.coding
    }

    pub fn pages(&self) -> &[Page]
        ensures value { result.now ≡ (text_of self.now).pages }
        ensures few { length result.now ≤ 15 }
    {
        self.pages.as_slice()
    }

    // Begins it anew, with no page yet.
    pub fn restart(&mut self, coding: u8)
        ensures { text_of self.new ≡ record { coding = coding; pages = [] } }
    {
        self.pages.clear();
        self.coding = coding;
    }

    // One page more; where fifteen are there it is given back.
    pub fn push(&mut self, page: Page) -> Result<(), Full<Page>>
        ensures answer { result ≡ (if nat_lt (length (text_of self.old).pages) 15 then Ok tt else Err (record { 0 = page })) }
        ensures pages { (text_of self.new).pages ≡ (if nat_lt (length (text_of self.old).pages) 15 then (text_of self.old).pages ++ page ∷ [] else (text_of self.old).pages) }
        ensures coding { (text_of self.new).coding ≡ (text_of self.old).coding }
    {
        self.pages.push(page)
    }

    // A push that cannot fail, since there is room.
    pub fn push_reserved(&mut self, page: Page)
        requires { length (text_of self.old).pages < 15 }
        ensures { text_of self.new ≡ record { coding = (text_of self.old).coding; pages = (text_of self.old).pages ++ page ∷ [] } }
    {
        self.pages.push_reserved(page);
    }
}
