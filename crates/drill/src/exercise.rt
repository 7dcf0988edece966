// The calls of a drill.
use cbsp::framing::LONGEST;
use cbsp::refusal::Refusal;
use cells::file::MOST_CELLS;
use controller::links::OpenLink;
use controller::state::Table;
use controller::state::linking::{Announced, NotAnnounced};
use recordings::recording::Parts;
use site::drill::DrillSite;
use std::io;
use std::io::Write;

// A controller over a site, and where it writes.
#[derive(Drop)]
pub struct Exercise<'a, P> {
    pub rt: &'a P,
    pub table: Table,
    pub site: DrillSite,
    pub space: [u8; LONGEST],
}

impl<P: Print> Exercise<'_, P> {
    // Opens and announces twice, the second time for all to see, and takes the messages.
    pub fn run(&mut self, parts: Parts<'_>) -> io::Result<()> {
        let Ok(before) = self.announce() else {
            return Ok(());
        };
        let Announced {
            link: earlier,
            len: _,
        } = before;
        self.table.shut(earlier.into());
        let Ok(announced) = self.announce() else {
            return Ok(());
        };
        let Announced { link, len } = announced;
        let written = self.write(len);
        let answered = written.and_then(|()| self.answer_all(&link, parts));
        self.table.shut(link.into());
        answered
    }

    fn announce(&mut self) -> Result<Announced, Refusal> {
        let link = self.table.open()?;
        match self.table.announce(link, &mut self.space) {
            Ok(announced) => Ok(announced),
            Err(NotAnnounced { refusal, link }) => {
                self.table.shut(link.into());
                Err(refusal)
            }
        }
    }

    // The answer to each whole message, up to one that is refused.
    fn answer_all(&mut self, link: &OpenLink, parts: Parts<'_>) -> io::Result<()> {
        for part in parts {
            let mut marks = [0; MOST_CELLS];
            let answer = self
                .table
                .message(&self.site, link, part.octets, &mut marks, &mut self.space);
            match answer {
                Ok(answered) => self.write(answered.len)?,
                Err(_) => return Ok(()),
            }
        }
        Ok(())
    }

    // What stands at the front of the space.
    fn write(&self, len: usize) -> io::Result<()> {
        io::writer(self.rt).write_all(&self.space[..len.min(LONGEST)])
    }
}
