// A period over a frame site, and what its memory then holds.
ghost use Rattle.frame.specs.Framed.{Framed, FirstFramed};

use crate::frame_site::FrameSite;
use site::period::{Offer, air};

// One period; the memory begins with the broadcasts that were done, and stays as it was behind them. It is
// `air` itself, with what a frame site's memory then holds: a promise that `air` can't make of any site.
pub fn air_frames(site: &mut FrameSite<'_>, offers: &[Offer<'_>]) -> usize
    ensures { Framed site.old offers.now result site.new }
{
    air(site, offers)
}

// The first period of a site on that memory.
pub fn first_frames(memory: &mut [u8], offers: &[Offer<'_>]) -> usize
    ensures { FirstFramed offers.now result memory.old memory.new }
{
    let mut site = FrameSite::new(memory);
    air_frames(&mut site, offers)
}
