// A site: the 64 cells that a controller drives, and the broadcasts that are done there.
//
// The trait states what a site means and nothing of how one is built, so code over any `S: Site` is proved once.
// A site is new when `New` of its model holds; whatever makes one promises that.
#![tactic(auto)]

ghost use Rattle.std.specs.Prelude.{◌≡◌, true, false};
ghost use Rattle.site.specs.Model.{Model, Sound};
ghost use Rattle.site.specs.Events.{Event, Goes};
ghost use Rattle.site.specs.Events.Event.{switched, started, offered};
ghost use Rattle.site.specs.Messages.{aired};

use crate::message::CbsMessage;
use cbsp::channel::Channel;

pub mod cell_states;
pub mod drill;
pub mod message;
pub mod period;

// Two ghost members, `model` and `steps`, no record of both: most clauses read the model alone. A cell is its
// number, since a site keeps its cells as it likes, and a channel stands beside it, since most calls on a
// cell need none.
pub trait Site {
    // what a site shows: its capacity, and for each cell whether it is open, its room and its counts
    ghost model: { Self → Model };

    // the proof of what holds of every site
    ghost sound: { (s : Self) → Sound (model s) };

    // what an implementation promises of a call beside its meaning, as the octets that a broadcast leaves in memory;
    // code over any site hands it on
    ghost steps: { Self → Event → Self → Type 0 } = { λ _ _ _. Unit {0} };

    // The room that each cell has when a period starts.
    fn capacity(&self) -> u16
        ensures { result ≡ (model self.now).capacity };

    fn is_open(&self, cell: usize) -> bool
        ensures { result ≡ (model self.now).opened cell };

    // The broadcasts that the cell can still do in the period.
    fn room(&self, cell: usize) -> u16
        ensures { result ≡ (model self.now).room cell };

    // The broadcasts that were done in the cell on the channel.
    fn count(&self, cell: usize, channel: Channel) -> u64
        ensures { result ≡ (model self.now).count cell channel };

    fn close(&mut self, cell: usize)
        ensures { Goes model steps self.old (switched cell false) self.new };

    fn open(&mut self, cell: usize)
        ensures { Goes model steps self.old (switched cell true) self.new };

    fn start_period(&mut self)
        ensures { Goes model steps self.old started self.new };

    // Offers a message; answers whether it was broadcast. A bool: that a cell declines is no error, and the
    // event that it is says the same yes or no.
    fn broadcast(&mut self, cell: usize, channel: Channel, message: CbsMessage<'_>) -> bool
        ensures { Goes model steps self.old (offered cell channel (aired message.entry) result) self.new };
}
