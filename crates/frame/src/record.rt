// What a broadcast writes into the memory: the cell, the channel, and the pages that go out. The definition
// `put` stands here as it does with the elements: frame stands on cbsp and site alone, and knows no elements.
ghost use Rattle.std.specs.Prelude.{◌≡◌, ◌+◌, ◌*◌, ◌<◌, ◌≤◌, length};
ghost use Rattle.site.specs.Messages.{aired};
ghost use Rattle.site.specs.Pages.{pages_on_air, page_octets};
ghost use Rattle.cbsp.specs.Octets.{put};
ghost use Rattle.frame.specs.Record.{aired_octets, record_octets};

use cbsp::channel::Channel;
use site::message::{CbsMessage, MOST_PAGES, PAGE, Page, page_octets, pages_on_air};

// The octets of the longest broadcast: cell, channel and fifteen pages.
pub const LONGEST: usize = 2 + MOST_PAGES * PAGE;

// Writes the page at an index among those of a message into the space of all its pages.
fn write_page(space: &mut [u8], message: CbsMessage<'_>, index: usize, page: &Page)
    requires { (index < 15) × (88 * index + 88 ≤ length space.old) }
    ensures size { length (page_octets (aired message.entry) (index + 1) page.now) ≡ 88 }
    ensures written { space.new ≡ put (page_octets (aired message.entry) (index + 1) page.now) (88 * index) space.old }
{
    // by the index: after `chunks_exact_mut` a proof knows no octet of the space
    let at = PAGE * index;
    let octets = page_octets(message, (index + 1) as u8, page);
    space[at..at + PAGE].copy_from_slice(&octets);
}

// Writes the pages of a message that go on the air, one behind the other.
fn write_pages(space: &mut [u8], message: CbsMessage<'_>)
    requires { 88 * pages_on_air (aired message) ≤ length space.old }
    ensures size { length (aired_octets (aired message.entry)) ≡ 88 * pages_on_air (aired message.entry) }
    ensures written { space.new ≡ put (aired_octets (aired message.entry)) 0 space.old }
{
    let aired = &message.pages[..pages_on_air(message)];
    for (index, page) in aired.iter().enumerate() {
        write_page(space, message, index, page);
    }
}

// Writes a broadcast at the front of the space that is free; answers how many octets it has.
pub fn write_record(space: &mut [u8], cell: u8, channel: Channel, message: CbsMessage<'_>) -> usize
    requires { 1322 ≤ length space.old }
    ensures bound { result ≤ 1322 }
    ensures size { result ≡ length (record_octets cell channel (aired message.entry)) }
    ensures written { space.new ≡ put (record_octets cell channel (aired message.entry)) 0 space.old }
{
    let (heading, pages) = space.split_at_mut(2);
    heading.copy_from_slice(&[cell, u8::from(channel)]);
    write_pages(pages, message);
    2 + PAGE * pages_on_air(message)
}
