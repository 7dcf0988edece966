// A Message Content: one page.
ghost use Rattle.elements.specs.Writes.{Room, Writes};
ghost use Rattle.pages.specs.Pages.{page_body};
ghost use Rattle.pages.specs.declared.page.Page.{Page as OnePage};

use crate::page::{PAGE_BODY, PAGE_CONTENT, Page, page_at};
use elements::element::{Element, Identified};
use elements::faults::ElementFault;
use elements::reader::Reader;
use elements::writer::Writer;

pub struct MessageContent;

impl Identified for MessageContent {
    const ID: u8 = 0x01;

    ghost ID = { 1 };
}

impl<'a> Element<'a> for MessageContent {
    type Value = Page;

    ghost Meaning = { OnePage };

    ghost meant = { λ p. p };

    ghost body = { page_body };

    fn read(reader: &mut Reader<'a>, start: usize) -> Result<Page, ElementFault> {
        if reader.left() < PAGE_BODY {
            return Err(ElementFault::RunsPast(start));
        }
        let page = page_at(reader.octets, reader.at);
        if !(1..=PAGE_CONTENT).contains(&usize::from(page.used)) {
            return Err(ElementFault::OutOfRange(reader.at));
        }
        reader.at += PAGE_BODY;
        Ok(page)
    }

    fn width(value: Page) -> Option<usize> {
        let used = usize::from(value.used);
        (1..=PAGE_CONTENT).contains(&used).then_some(PAGE_BODY)
    }

    // Also one that is out of range.
    fn put(writer: &mut Writer<'_>, value: Page)
        requires { Room (page_body.spell value) writer.old }
        ensures { Writes (page_body.spell value) writer.old writer.new }
    {
        writer.put_octet(value.used);
        writer.put_octets(&value.content);
    }
}
