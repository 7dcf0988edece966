// A table over a site, with the links that a host holds to it, and calls on them.
ghost use Rattle.std.specs.Prelude.{◌≡◌};
ghost use Rattle.controller.specs.Moments.{sent_len};

use crate::links::held::HeldLinks;
use crate::state::Table;
use crate::state::message::Answered;
use cbsp::refusal::Refusal;
use elements::recovery::Recovery;

pub mod run;
mod steps;

pub struct World<S> {
    pub table: Table,
    pub site: S,
    pub links: HeldLinks,
}

// A call of the host. A link is named by the number of its opening.
#[derive(Clone, Copy)]
pub enum Call<'a> {
    Open,
    Announce {
        link: u16,
    },
    Message {
        link: u16,
        octets: &'a [u8],
    },
    Period,
    Lose {
        link: u16,
        cell: usize,
    },
    Restore {
        link: u16,
        cell: usize,
        recovery: Recovery,
    },
    Shut {
        link: u16,
    },
}

// What came of a call.
#[derive(Clone, Copy, PartialEq, Eq, Debug)]
pub enum Report {
    Done(Answered),
    Refused(Refusal),
    // the call was not made: the host has no such link of that number
    NoLink,
}

impl Report {
    // How many octets were sent.
    pub fn len(self) -> usize
        ensures { result ≡ sent_len self }
    {
        match self {
            Report::Done(answered) => answered.len,
            Report::Refused(_) | Report::NoLink => 0,
        }
    }
}
