// What came of the calls of a run, added up, so that the C side can tell that each call did what it should.
use cbsp::channel::Channel;
use controller::world::Report;
use site::Site;
use site::cell_states::CELLS;

// Plain numbers: C checks them against what it expects of so many rounds.
#[repr(C)]
#[derive(Clone, Copy, PartialEq, Eq, Debug)]
pub struct Sums {
    // calls that were accepted
    pub accepted: u64,
    // the type octets of their replies
    pub types: u64,
    // the octets of their replies
    pub octets: u64,
    // the broadcasts that the site counted
    pub broadcasts: u64,
}

impl Sums {
    pub(crate) fn new() -> Sums {
        Sums {
            accepted: 0,
            types: 0,
            octets: 0,
            broadcasts: 0,
        }
    }

    // An accepted call, whose reply begins with that octet where it has one.
    pub(crate) fn add(&mut self, report: Report, first: u8) {
        match report {
            Report::Done(answered) if answered.len > 0 => {
                self.accepted = self.accepted.wrapping_add(1);
                self.types = self.types.wrapping_add(u64::from(first));
                self.octets = self.octets.wrapping_add(answered.len as u64);
            }
            Report::Done(_) => self.accepted = self.accepted.wrapping_add(1),
            Report::Refused(_) | Report::NoLink => {}
        }
    }

    // The broadcasts of all cells on both channels.
    pub(crate) fn count<S: Site>(&mut self, site: &S) {
        for cell in 0..CELLS {
            let basic = site.count(cell, Channel::Basic);
            let extended = site.count(cell, Channel::Extended);
            self.broadcasts = self.broadcasts.wrapping_add(basic).wrapping_add(extended);
        }
    }
}
