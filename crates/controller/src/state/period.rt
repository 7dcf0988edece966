// A period, and whether the next KEEP-ALIVE is overdue.
ghost use Rattle.std.specs.Prelude.{◌≡◌, ◌*◌, ◌-◌, nat_lt};
ghost use Rattle.controller.specs.Held.{state_of};
ghost use Rattle.controller.specs.Sites.{Periods};
ghost use Rattle.law.specs.Calls.{is_overdue};

use super::{LastAlive, Table};
use cbsp::refusal::Refusal;
use site::Site;

impl Table {
    // Starts a period at the site and offers what is due there, by cell number and within a cell by age, the oldest
    // message first.
    pub fn period<S: Site>(&mut self, site: &mut S) -> Result<(), Refusal>
        ensures { Periods S.Site.model S.Site.steps (state_of self.old) site.old (state_of self.new) site.new result }
    {
        let Some(periods) = self.periods.checked_add(1) else {
            return Err(Refusal::PeriodsUsedUp);
        };
        // first, so that no count is ever above it
        self.periods = periods;
        site.start_period();
        self.store.serve(site);
        Ok(())
    }

    // Whether the periods since the last KEEP-ALIVE, of 1.883 seconds each, come to more than three times its seconds.
    pub fn is_overdue(&self) -> bool
        ensures { result ≡ is_overdue (state_of self.now) }
    {
        match self.alive {
            Some(alive) => alive.is_overdue(self.periods),
            None => false,
        }
    }
}

impl LastAlive {
    // In milliseconds, which are too many for 32 bits.
    fn is_overdue(self, periods: u32) -> bool
        ensures { result ≡ nat_lt (3000 * self.seconds) ((periods - self.since) * 1883) }
    {
        let gone = u64::from(periods.saturating_sub(self.since));
        3_000 * u64::from(self.seconds) < gone * 1_883
    }
}
