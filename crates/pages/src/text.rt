// The text of a message: Number of Pages, Data Coding Scheme, and so many pages.
ghost use Rattle.std.specs.Prelude.{◌≡◌, ℕ, true, List};
ghost use Rattle.std.specs.List.{flat_map};
ghost use Rattle.elements.specs.Parts.{coding_scheme, number_of_pages};
ghost use Rattle.elements.specs.Reads.{Reads};
ghost use Rattle.elements.specs.Writes.{Room, Writes};
ghost use Rattle.pages.specs.Pages.{each, page as page_codec, pages_meant, read_times, repeated};
ghost use Rattle.pages.specs.declared.page.Page.{Page as OnePage};

use crate::content::MessageContent;
use crate::measuring::page_count;
use crate::page::{PAGE_ELEMENT, Page};
use crate::pages::Pages;
use elements::element::{Element, Identified};
use elements::elements::{Elements, Must};
use elements::faults::Fault;
use elements::parts::{DataCodingScheme, NumberOfPages};
use elements::reader::Reader;
use elements::writer::Writer;

// So many pages.
pub fn read_pages<'a>(reader: &mut Reader<'a>, count: usize) -> Result<Pages<'a>, Fault>
    ensures { Reads pages_meant reader.old result reader.new (read_times page_codec reader.old.octets.now count reader.old.at) }
{
    // taken before: behind the loop the reader stands past the pages
    let octets = reader.octets.get(reader.at..).unwrap_or(&[]);
    for _ in 0..count {
        Must::<MessageContent>::read(reader)?;
    }
    let (elements, _) = octets.as_chunks();
    Ok(Pages::Read(&elements[..count]))
}

// Not Must::put, which asks for pages in range.
fn put_page(writer: &mut Writer<'_>, page: Page)
    requires { Room (page_codec.spell page) writer.old }
    ensures { Writes (page_codec.spell page) writer.old writer.new }
{
    writer.put_octet(MessageContent::ID);
    MessageContent::put(writer, page);
}

// Pages in order, also those that are out of range. A for over one call, as put_entries of lists is: a generic
// one would take what is put and more words.
pub fn put_pages(writer: &mut Writer<'_>, pages: Pages<'_>)
    requires { Room (flat_map page_codec.spell (pages_meant pages)) writer.old }
    ensures { Writes (flat_map page_codec.spell (pages_meant pages.entry)) writer.old writer.new }
{
    for page in pages {
        put_page(writer, page);
    }
}

pub struct Text;

impl<'a> Elements<'a> for Text {
    // The data coding scheme and the pages. A pair where it is read, two arguments where it is used: a struct
    // would be taken apart at once.
    type Value = (u8, Pages<'a>);

    ghost Meaning = { ℕ × List OnePage };

    ghost meant = { λ v. (v.0, pages_meant v.1) };

    ghost codec = { repeated number_of_pages coding_scheme page_codec };

    fn read(reader: &mut Reader<'a>) -> Result<(u8, Pages<'a>), Fault> {
        let count = Must::<NumberOfPages>::read(reader)?;
        let coding = Must::<DataCodingScheme>::read(reader)?;
        let pages = read_pages(reader, usize::from(count))?;
        Ok((coding, pages))
    }

    fn width(value: (u8, Pages<'a>)) -> Option<usize> {
        let count = page_count(value.1)?;
        Some(4 + PAGE_ELEMENT * count)
    }

    fn put(writer: &mut Writer<'_>, value: (u8, Pages<'a>)) {
        let (coding, pages) = value;
        Must::<NumberOfPages>::put(writer, pages.count() as u8);
        Must::<DataCodingScheme>::put(writer, coding);
        put_pages(writer, pages);
    }
}
