// The two figures of a cell and channel, and why they differ.
use cbsp::channel::Channel;
use std::{fmt, io};

// A channel in one word.
#[derive(Clone, Copy)]
struct ChannelWord(Channel);

impl fmt::Display for ChannelWord {
    fn fmt<W: fmt::Write>(&self, f: &mut fmt::Formatter<W>) -> fmt::Result {
        f.write_str(match self.0 {
            Channel::Basic => "basic",
            Channel::Extended => "extended",
        })
    }
}

// What the site counted, the sum that replies told, the counts of the messages that stand, and whether other messages of
// the cell ended whose counts no reply told in full.
#[derive(Clone, Copy, PartialEq, Eq, Debug)]
pub struct Figures {
    pub channel: Channel,
    pub site: u64,
    pub told: u64,
    pub standing: u64,
    pub excepted: bool,
}

impl fmt::Display for Figures {
    fn fmt<W: fmt::Write>(&self, f: &mut fmt::Formatter<W>) -> fmt::Result {
        let Figures {
            site,
            told,
            standing,
            ..
        } = *self;
        let channel = ChannelWord(self.channel);
        let excepted = if self.excepted { " excepted" } else { "" };
        write!(
            f,
            "{channel}: site {site} told {told} standing {standing}{excepted}"
        )
    }
}

impl Figures {
    // Why the site counted more than was told, where it did.
    pub fn explain(self, rt: &impl Print) -> io::Result<()> {
        let more = self.site.saturating_sub(self.told);
        if more == 0 {
            return Ok(());
        }
        let channel = self.channel;
        let standing = self.standing;
        let untold = more.saturating_sub(standing);
        if untold == 0 {
            return println!(rt;
                "  on the {channel} the site counted {more} more than the replies told: those of messages that still stand"
            );
        }
        println!(rt;
            "  on the {channel} the site counted {more} more than the replies told: {standing} of messages that still stand, and {untold} of messages that ended without a reply that told their counts in full, by a reset, a return with messages lost, or a count too large for its field"
        )
    }
}
