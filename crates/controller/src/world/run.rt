// Calls on a world, one after the other.
ghost use Rattle.std.specs.Prelude.{ℕ, List, length, map};
ghost use Rattle.controller.specs.declared.world.Report.{Report as Told};
ghost use Rattle.controller.specs.Moments.{meant, world_of};
ghost use Rattle.controller.specs.Runs.{Ran};

use super::{Call, Report, World};
use site::Site;

// Who is told what came of each call.
pub trait Watcher {
    // what an implementation promises of being told: the watcher before, the report, the octets that were sent, the watcher after
    ghost tells: { Self → Told → List ℕ → Self → Type 0 } = { λ _ _ _ _. Unit {0} };

    fn tell(&mut self, report: Report, sent: &[u8])
        ensures { tells self.old report sent.now self.new };
}

impl<S: Site> World<S> {
    // Makes the calls, each with the same marks and reply space, and tells the watcher of each.
    pub fn run<W: Watcher>(
        &mut self,
        calls: &[Call<'_>],
        marks: &mut [u8],
        space: &mut [u8],
        watcher: &mut W,
    )
        ensures { Ran S.Site.model S.Site.steps W.Watcher.tells (map (meant (length marks.old) (length space.old)) calls.now) (world_of self.old) (world_of self.new) (record { marks = marks.old; space = space.old }) (record { marks = marks.new; space = space.new }) watcher.old watcher.new }
    {
        for call in calls {
            let report = self.step(*call, marks, space);
            watcher.tell(report, &space[..report.len()]);
        }
    }
}
