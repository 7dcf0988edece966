// Links of a broadcast centre to a table. Each has the number of the opening that it came from. Neither is copied or let go:
// a link that is no longer wanted is shut.
ghost use Rattle.std.specs.Prelude.{◌≡◌};
ghost use Rattle.controller.specs.declared.links.Link.TheVariants.{Open, Waiting};
ghost use Rattle.controller.specs.Links.{link_number, open_number, waiting_number};

pub mod held;

// What an opening gives. It takes no message: announce first, which makes an OpenLink of it.
pub struct WaitingLink {
    number: u16,
}

// A link on which the table was announced: it takes messages. Shutting uses it up: after that, open another.
pub struct OpenLink {
    number: u16,
}

impl WaitingLink {
    pub(crate) fn new(number: u16) -> WaitingLink
        ensures { waiting_number result ≡ number }
    {
        WaitingLink { number }
    }

    // The number of its opening, from 1 on.
    pub fn number(&self) -> u16
        ensures { result ≡ waiting_number self.now }
    {
        self.number
    }

    // The link, once the table is announced on it.
    pub(crate) fn announced(self) -> OpenLink
        ensures { open_number result ≡ waiting_number self }
    {
        let WaitingLink { number } = self;
        OpenLink { number }
    }
}

impl OpenLink {
    // The number of its opening, from 1 on.
    pub fn number(&self) -> u16
        ensures { result ≡ open_number self.now }
    {
        self.number
    }
}

// Either link, to be shut.
pub enum Link {
    Waiting(WaitingLink),
    Open(OpenLink),
}

impl From<WaitingLink> for Link {
    ghost from_gives = { λ link r. r ≡ Waiting link };

    fn from(link: WaitingLink) -> Link {
        Link::Waiting(link)
    }
}

impl From<OpenLink> for Link {
    ghost from_gives = { λ link r. r ≡ Open link };

    fn from(link: OpenLink) -> Link {
        Link::Open(link)
    }
}

impl Link {
    // The number of its opening, from 1 on.
    pub fn number(&self) -> u16
        ensures { result ≡ link_number self.now }
    {
        match self {
            Link::Waiting(link) => link.number(),
            Link::Open(link) => link.number(),
        }
    }

    // The number of its opening; the link is used up.
    pub(crate) fn shut(self) -> u16
        ensures { result ≡ link_number self }
    {
        match self {
            Link::Waiting(WaitingLink { number }) => number,
            Link::Open(OpenLink { number }) => number,
        }
    }
}
