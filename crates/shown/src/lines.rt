// Lines about messages.
use cells::cell::Cell;
use std::{fmt, io};

// Where lines are written, and the cells of the file, by whose numbers entries are told.
#[derive_where(Clone, Copy)]
pub struct Lines<'a, P> {
    pub rt: &'a P,
    pub known: &'a [Cell],
}

impl<P: Print> Lines<'_, P> {
    // An element that takes one line.
    pub fn element<D: fmt::Display + Drop>(&self, name: &str, value: D) -> io::Result<()> {
        println!(self.rt; "  {name}: {value}")
    }

    // One that may be there.
    pub fn optional<D: fmt::Display + Drop>(&self, name: &str, value: Option<D>) -> io::Result<()> {
        value.map_or(Ok(()), |given| self.element(name, given))
    }
}
