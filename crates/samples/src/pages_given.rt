// Pages with text of eight bits a character, and filling.
use cbsp::limits::MOST_PAGES;
use pages::page::{PAGE_CONTENT, Page};
use std::array;

const FILLING: u8 = 0x2b;

// A site's page, of which airtime makes some, is another type, which doesn't say how many octets are in use.
pub fn page(text: &[u8]) -> Page {
    let used = text.len().min(PAGE_CONTENT);
    let mut content = [FILLING; PAGE_CONTENT];
    content[..used].copy_from_slice(&text[..used]);
    Page {
        used: used as u8,
        content,
    }
}

// As many pages as a message has at most, all octets of each in use.
pub fn many_pages() -> [Page; MOST_PAGES] {
    array::from_fn(|number| page(&[b'a' + number as u8; PAGE_CONTENT]))
}
