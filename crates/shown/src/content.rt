// The pages of a message: their octets, and their text where it is plain.
// Clone and Copy alone: what is told here is made, printed and never compared.
ghost use Rattle.std.specs.Prelude.{◌+◌, ◌*◌, ◌/◌, ◌<◌, ◌≤◌, length};
ghost use Rattle.std.specs.Iterator.{at_most};

use crate::lines::Lines;
use crate::octets::Hex;
use pages::page::Page;
use pages::pages::Pages;
use std::{fmt, io};

// How many octets stand in a line.
const IN_LINE: usize = 16;

// The character of a code, where the GSM 7 bit default alphabet and ASCII both have it.
fn plain(code: u8) -> Option<char> {
    match code {
        b' '..=b'#' | b'%'..=b'?' | b'A'..=b'Z' | b'a'..=b'z' => Some(char::from(code)),
        _ => None,
    }
}

// The codes of a text that are still to come, of seven or eight bits each, the low bits of an octet first.
#[derive(Clone, Copy)]
struct Codes<'a> {
    octets: &'a [u8],
    width: u8,
    // Bits that were taken from the octets and given with no code so far.
    held: u16,
    bits: u8,
    ghost widths: { (7 ≤ width) × (width ≤ 8) },
    ghost few: { bits < 8 },
}

impl Iterator for Codes<'_> {
    type Item = u8;

    ghost remaining = { λ s. at_most (2 * length s.octets.now + s.bits / 7) };

    fn next(&mut self) -> Option<u8> {
        if self.bits < self.width {
            let (octet, others) = self.octets.split_first()?;
            self.held |= u16::from(*octet) << self.bits;
            self.bits += 8;
            self.octets = others;
        }
        let code = (self.held & 0xff) as u8 & u8::MAX >> (8 - self.width);
        self.held >>= self.width;
        self.bits -= self.width;
        Some(code)
    }
}

// The user information of a page, read as text.
#[derive(Clone, Copy)]
pub struct Text<'a> {
    pub octets: &'a [u8],
    pub coding: u8,
}

impl<'a> Text<'a> {
    // A data coding scheme below 0x10 says the GSM 7 bit default alphabet in some language. No more is asked of it, so it stays
    // an octet here.
    fn codes(&self) -> Codes<'a> {
        Codes {
            octets: self.octets,
            width: if self.coding < 0x10 { 7 } else { 8 },
            held: 0,
            bits: 0,
        }
    }

    // Whether more than half of it are plain characters, the point left out.
    fn is_readable(&self) -> bool {
        let letters = self
            .codes()
            .filter_map(plain)
            .filter(|letter| *letter != '.');
        letters.count() > self.codes().count() / 2
    }
}

// A point stands for what is not plain.
impl fmt::Display for Text<'_> {
    fn fmt<W: fmt::Write>(&self, f: &mut fmt::Formatter<W>) -> fmt::Result {
        for code in self.codes() {
            f.write_char(plain(code).unwrap_or('.'))?;
        }
        Ok(())
    }
}

impl<P: Print> Lines<'_, P> {
    // One page: its octets in lines, the filling among them, then its user information as text.
    fn page(&self, number: usize, page: &Page, coding: u8) -> io::Result<()> {
        let used = page.used;
        println!(self.rt; "  Message Content {number}: {used} octets of user information")?;
        for line in page.content.chunks(IN_LINE) {
            println!(self.rt; "    {}", Hex(line))?;
        }
        let end = usize::from(used).min(page.content.len());
        let text = Text {
            octets: &page.content[..end],
            coding,
        };
        if text.is_readable() {
            println!(self.rt; "    text: {text}")?;
        }
        Ok(())
    }

    pub fn pages(&self, coding: u8, pages: Pages<'_>) -> io::Result<()> {
        self.element("Number of Pages", pages.count())?;
        println!(self.rt; "  Data Coding Scheme: {coding:02x}")?;
        for (number, page) in (1..).zip(pages) {
            self.page(number, &page, coding)?;
        }
        Ok(())
    }
}
