// Octets as text, and text as octets.
use std::alloc::{AllocError, Global};
use std::fmt;

// Octets in upper-case hexadecimal, a space between two.
#[derive(Clone, Copy)]
pub struct Spaced<'a>(pub &'a [u8]);

impl fmt::Display for Spaced<'_> {
    fn fmt<W: fmt::Write>(&self, f: &mut fmt::Formatter<W>) -> fmt::Result {
        for (place, octet) in self.0.iter().enumerate() {
            if place > 0 {
                f.write_str(" ")?;
            }
            write!(f, "{octet:02X}")?;
        }
        Ok(())
    }
}

// The value of a hexadecimal digit, 0 of any other letter.
fn value(digit: u8) -> u8 {
    match digit {
        b'0'..=b'9' => digit - b'0',
        b'a'..=b'f' => digit - b'a' + 10,
        b'A'..=b'F' => digit - b'A' + 10,
        _ => 0,
    }
}

// The octets that a text of hexadecimal digits says, two digits for each, spaces apart.
pub fn octets_of(heap: Global, text: &str) -> Result<Vec<u8>, AllocError> {
    let mut octets = Vec::new(heap);
    let mut high = None;
    for digit in text.bytes().filter(|letter| letter.is_ascii_hexdigit()) {
        match high.take() {
            None => high = Some(value(digit)),
            Some(first) => octets.push(first << 4 | value(digit))?,
        }
    }
    Ok(octets)
}
