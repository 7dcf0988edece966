// A period over any site, with offers that are given.
ghost use Rattle.site.specs.Period.{Served, Period};

use crate::Site;
use crate::message::CbsMessage;
use cbsp::channel::Channel;

// A message that is offered on a channel of a cell.
#[derive(Clone, Copy, PartialEq, Eq, Debug)]
pub struct Offer<'a> {
    pub cell: usize,
    pub channel: Channel,
    pub message: CbsMessage<'a>,
}

// Makes offers in their order; answers how many broadcasts were done.
fn offer_all<S: Site>(site: &mut S, offers: &[Offer<'_>]) -> usize
    ensures { Served S.Site.model S.Site.steps site.old offers.now result site.new }
{
    // no `filter` and `count`: after a closure that changes the site, a proof knows nothing of it
    let mut done = 0;
    for offer in offers {
        if site.broadcast(offer.cell, offer.channel, offer.message) {
            done += 1;
        }
    }
    done
}

// Starts a period and makes the offers.
pub fn air<S: Site>(site: &mut S, offers: &[Offer<'_>]) -> usize
    ensures { Period S.Site.model S.Site.steps site.old offers.now result site.new }
{
    site.start_period();
    offer_all(site, offers)
}
