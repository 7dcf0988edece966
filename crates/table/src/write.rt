// WRITE-REPLACE in one cell.
use crate::asked::Asked;

mod parts;
mod step;

// The contents that serve a table, each in its slot: they are reserved once, and messages of many cells share one.
pub const SLOTS: u8 = 32;

// As many, as a length. as: a const can't call From.
pub const CONTENTS: usize = SLOTS as usize;

// The request, and the slot of its content once a message has begun with it: the cells begun by one request share one content.
#[derive(Clone, Copy, PartialEq, Eq, Debug)]
pub struct Write {
    pub asked: Asked,
    pub slot: Option<u8>,
}
