// The three kinds of list entries. Three structs, no generic one: the fields behind the identity have names,
// and differ.
ghost use Rattle.std.specs.Prelude.{◌≡◌, true, false};
ghost use Rattle.std.proofs.Common.{rules};
ghost use Rattle.cbsp.specs.Decoding.{decoded};
ghost use Rattle.lists.specs.Kinds.{cell_kind, cell_known, cell_meant, cell_sound, completed_kind, completed_known, completed_meant, completed_sound, failed_kind, failed_known, failed_meant, failed_sound, info_code, info_of};

use crate::cell::CellIdentity;
use crate::entry::{Flaw, ListEntry};
use crate::form::Form;
use cbsp::code::UnknownCode;
use cbsp::limits::{MOST_NAMED, MOST_TOLD};
use cbsp::octets::two_at;
use elements::cause::Cause;
use elements::writer::Writer;

// An entry of a Cell List.
#[derive(Clone, Copy, PartialEq, Eq, Debug)]
pub struct CellEntry {
    pub cell: CellIdentity,
}

impl ListEntry for CellEntry {
    const TAIL: usize = 0;

    const HEADED: bool = true;

    const MOST: usize = MOST_NAMED;

    ghost TAIL = { 0 };

    ghost HEADED = { true };

    ghost MOST = { 128 };

    ghost kind = { cell_kind };

    ghost meant = { cell_meant };

    ghost stated = { Prim.search rules };

    ghost sound = { cell_sound };

    ghost known = { cell_known };

    fn takes(form: Form) -> bool {
        matches!(form, Form::LacCi | Form::Ci | Form::Lac)
    }

    fn make(cell: CellIdentity, _tail: &[u8]) -> Result<Self, Flaw> {
        Ok(CellEntry { cell })
    }

    fn identity(&self) -> CellIdentity {
        self.cell
    }

    fn put_tail(&self, _writer: &mut Writer<'_>) {}
}

// What a count of broadcasts is worth.
#[derive(Clone, Copy, PartialEq, Eq, Debug)]
pub enum Info {
    Exact = 0,
    Overflow = 1,
    Unknown = 2,
}

impl From<Info> for u8 {
    ghost from_gives = { λ v r. r ≡ info_code v };

    fn from(info: Info) -> u8 {
        info as u8
    }
}

impl TryFrom<u8> for Info {
    type Error = UnknownCode;

    ghost try_from_gives = { λ o r. r ≡ decoded info_of o };

    fn try_from(code: u8) -> Result<Info, UnknownCode> {
        match code {
            0 => Ok(Info::Exact),
            1 => Ok(Info::Overflow),
            2 => Ok(Info::Unknown),
            _ => Err(UnknownCode(code)),
        }
    }
}

// An entry of a Number of Broadcasts Completed List.
#[derive(Clone, Copy, PartialEq, Eq, Debug)]
pub struct CompletedEntry {
    pub cell: CellIdentity,
    pub count: u16,
    pub info: Info,
}

impl ListEntry for CompletedEntry {
    const TAIL: usize = 3;

    const HEADED: bool = true;

    const MOST: usize = MOST_TOLD;

    ghost TAIL = { 3 };

    ghost HEADED = { true };

    ghost MOST = { 192 };

    ghost kind = { completed_kind };

    ghost meant = { completed_meant };

    ghost stated = { Prim.search rules };

    ghost sound = { completed_sound };

    ghost known = { completed_known };

    fn takes(form: Form) -> bool {
        matches!(form, Form::LacCi | Form::Ci)
    }

    fn make(cell: CellIdentity, tail: &[u8]) -> Result<Self, Flaw> {
        let Ok(info) = Info::try_from(tail[2]) else {
            return Err(Flaw { index: 2 });
        };
        let count = two_at(tail, 0);
        Ok(CompletedEntry { cell, count, info })
    }

    fn identity(&self) -> CellIdentity {
        self.cell
    }

    fn put_tail(&self, writer: &mut Writer<'_>) {
        writer.put_two(self.count);
        writer.put_octet(u8::from(self.info));
    }
}

// An entry of a Failure List.
#[derive(Clone, Copy, PartialEq, Eq, Debug)]
pub struct FailedEntry {
    pub cell: CellIdentity,
    pub cause: Cause,
}

impl ListEntry for FailedEntry {
    const TAIL: usize = 1;

    const HEADED: bool = false;

    const MOST: usize = MOST_TOLD;

    ghost TAIL = { 1 };

    ghost HEADED = { false };

    ghost MOST = { 192 };

    ghost kind = { failed_kind };

    ghost meant = { failed_meant };

    ghost stated = { Prim.search rules };

    ghost sound = { failed_sound };

    ghost known = { failed_known };

    fn takes(form: Form) -> bool {
        match form {
            Form::LacCi | Form::Ci | Form::Lac | Form::All => true,
        }
    }

    fn make(cell: CellIdentity, tail: &[u8]) -> Result<Self, Flaw> {
        let Ok(cause) = Cause::try_from(tail[0]) else {
            return Err(Flaw { index: 0 });
        };
        Ok(FailedEntry { cell, cause })
    }

    fn identity(&self) -> CellIdentity {
        self.cell
    }

    fn put_tail(&self, writer: &mut Writer<'_>) {
        writer.put_octet(u8::from(self.cause));
    }
}
