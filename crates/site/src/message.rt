// A CBS message as it goes on the air, and the octets of its pages (3GPP TS 23.041).
ghost use Rattle.std.specs.Prelude.{◌≡◌};
ghost use Rattle.site.specs.Messages.{aired};
ghost use Rattle.site.specs.Pages.{page_octets, pages_on_air};

use cbsp::limits;
use cbsp::page::page_parameter;

// The octets of a page on the air.
pub const PAGE: usize = 88;

// The octets of a page's heading.
const HEADING: usize = 6;

// The octets of a page's content, behind its heading.
pub const CONTENT: usize = limits::PAGE_CONTENT;

// The most pages that a message has on the air: page numbers have four bits.
pub const MOST_PAGES: usize = limits::MOST_PAGES;

// The content of one page: user information and the padding behind it, as the centre sent them. A type of its
// own beside the page of a request, which says also how many octets are in use.
#[derive(Clone, Copy, PartialEq, Eq, Debug)]
pub struct Page {
    pub content: [u8; CONTENT],
}

// What goes out in a broadcast: what every page repeats, and the contents of the pages in order.
// Pages past the fifteenth do not go on the air.
#[derive(Clone, Copy, PartialEq, Eq, Debug)]
pub struct CbsMessage<'a> {
    pub serial: u16,
    pub identifier: u16,
    pub coding: u8,
    pub pages: &'a [Page],
}

// How many pages of a message go on the air.
pub fn pages_on_air(message: CbsMessage<'_>) -> usize
    ensures { result ≡ pages_on_air (aired message.entry) }
{
    message.pages.len().min(MOST_PAGES)
}

// The octets of a page with that number.
pub fn page_octets(message: CbsMessage<'_>, number: u8, page: &Page) -> [u8; PAGE]
    ensures { result ≡ page_octets (aired message.entry) number page.now }
{
    let [serial_high, serial_low] = message.serial.to_be_bytes();
    let [identifier_high, identifier_low] = message.identifier.to_be_bytes();
    let parameter = page_parameter(number, pages_on_air(message) as u8);
    let heading = [
        serial_high,
        serial_low,
        identifier_high,
        identifier_low,
        message.coding,
        parameter,
    ];
    let mut octets = [0; PAGE];
    octets[..HEADING].copy_from_slice(&heading);
    octets[HEADING..].copy_from_slice(&page.content);
    octets
}
