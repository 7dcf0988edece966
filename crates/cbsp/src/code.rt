// Octets that stand for the cases of a kind. Each kind writes its table out: Rattle derives no From and no
// TryFrom, and a macro of our own can't write their ghost members.
ghost use Rattle.std.specs.Prelude.{Some};
ghost use Rattle.cbsp.specs.Unknown.{unknown_text};

use std::error::Error;
use std::fmt;

// An octet that stands for no case of its kind.
#[derive(Clone, Copy, PartialEq, Eq, Hash, Debug)]
pub struct UnknownCode(pub u8);

impl fmt::Display for UnknownCode {
    ghost output = { λ e. Some (unknown_text e.0) };

    fn fmt<W: fmt::Write>(&self, f: &mut fmt::Formatter<W>) -> fmt::Result {
        write!(f, "no case has the code {:02x}", self.0)
    }
}

impl Error for UnknownCode {}
