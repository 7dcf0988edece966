// What a watcher of calls has seen.
use cbsp::refusal::Refusal;
use controller::world::Report;
use controller::world::run::Watcher;

// What came of the last call, how many were accepted, and why one was refused, if one was.
#[derive(Clone, Copy, PartialEq, Eq, Debug)]
pub struct Seen {
    pub last: Option<Report>,
    pub accepted: u64,
    pub refused: Option<Refusal>,
}

impl Seen {
    pub fn new() -> Seen {
        Seen {
            last: None,
            accepted: 0,
            refused: None,
        }
    }
}

impl Watcher for Seen {
    fn tell(&mut self, report: Report, _sent: &[u8]) {
        self.last = Some(report);
        match report {
            Report::Done(_) => self.accepted = self.accepted.saturating_add(1),
            Report::Refused(refusal) => self.refused = Some(refusal),
            Report::NoLink => {}
        }
    }
}
