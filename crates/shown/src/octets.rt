// Octets in hexadecimal.
// Clone and Copy alone: what is told here is made, printed and never compared.
use std::fmt;

// Octets, each between two texts.
#[derive(Clone, Copy)]
struct Each<'a> {
    before: &'static str,
    octets: &'a [u8],
    behind: &'static str,
}

impl fmt::Display for Each<'_> {
    fn fmt<W: fmt::Write>(&self, f: &mut fmt::Formatter<W>) -> fmt::Result {
        for octet in self.octets {
            write!(f, "{}{octet:02x}{}", self.before, self.behind)?;
        }
        Ok(())
    }
}

// Octets, each with a space before it.
fn spaced(octets: &[u8]) -> Each<'_> {
    Each {
        before: " ",
        octets,
        behind: "",
    }
}

#[derive(Clone, Copy)]
pub struct Hex<'a>(pub &'a [u8]);

impl fmt::Display for Hex<'_> {
    fn fmt<W: fmt::Write>(&self, f: &mut fmt::Formatter<W>) -> fmt::Result {
        match self.0.split_first() {
            Some((first, others)) => write!(f, "{first:02x}{}", spaced(others)),
            None => Ok(()),
        }
    }
}

// The octets around a place, with the octet there in brackets; empty brackets where the octets end. The place comes
// from a fault, and may lie behind the octets.
#[derive(Clone, Copy)]
pub struct Marked<'a> {
    pub octets: &'a [u8],
    pub place: usize,
}

// How many octets are shown on each side of a marked one.
const AROUND: usize = 12;

impl fmt::Display for Marked<'_> {
    fn fmt<W: fmt::Write>(&self, f: &mut fmt::Formatter<W>) -> fmt::Result {
        let (before, rest) = self.octets.split_at(self.place.min(self.octets.len()));
        let near = Each {
            before: "",
            octets: &before[before.len().saturating_sub(AROUND)..],
            behind: " ",
        };
        match rest.split_first() {
            Some((octet, behind)) => {
                let next = spaced(&behind[..behind.len().min(AROUND)]);
                write!(f, "{near}[{octet:02x}]{next}")
            }
            None => write!(f, "{near}[]"),
        }
    }
}
