// A rehearsal: the lines of a script carried out as calls on a world, and what came of each.
use crate::figures::Figures;
use crate::octets::octets_of;
use crate::script::Order;
use crate::seen::Seen;
use crate::sums::Sums;
use crate::told::{LinkKind, Outcome, Said, TypeOf};
use cbsp::channel::Channel;
use cbsp::framing::LONGEST;
use cells::cell::Cell;
use cells::file::MOST_CELLS;
use controller::world::{Call, Report, World};
use printed::message_lines::show_elements;
use shown::lines::Lines;
use site::Site;
use std::alloc::Global;
use std::io;

// The cells are those of the checked list, whose numbers and identities the lines have.
#[derive(Drop)]
pub struct Rehearsal<'a, 'b, 'c, P, S> {
    pub rt: &'a P,
    pub heap: Global,
    pub known: &'b [Cell],
    pub world: &'c mut World<S>,
    pub openings: u32,
    pub sums: Sums,
    pub marks: [u8; MOST_CELLS],
    pub space: [u8; LONGEST],
}

impl<P: Print, S: Site> Rehearsal<'_, '_, '_, P, S> {
    // Carries out what a line asks for, and writes what came of it.
    pub fn carry_out(&mut self, line: &str, order: Order<'_>) -> io::Result<()> {
        let said = Said {
            line,
            words: order.own_words(),
        };
        match order {
            Order::Open => self.open(said),
            Order::Announce(link) => self.answer(said, Call::Announce { link }, LinkKind::Waiting),
            Order::Message { link, octets } => self.message(said, link, octets),
            Order::Periods(count) => self.periods(said, count),
            Order::Lose { link, cell } => self.answer(
                said,
                Call::Lose { link, cell },
                LinkKind::Open,
            ),
            Order::Return {
                link,
                cell,
                recovery,
            } => {
                let call = Call::Restore {
                    link,
                    cell,
                    recovery,
                };
                self.answer(said, call, LinkKind::Open)
            }
            Order::Shut(link) => self.shut(said, link),
            Order::Overdue => {
                let overdue = if self.world.table.is_overdue() {
                    "yes"
                } else {
                    "no"
                };
                println!(self.rt; "{said}: {overdue}")
            }
            Order::Figures => self.figures(said),
            Order::Cells(_) | Order::Site(_) => Ok(()),
        }
    }

    // Makes a call, and takes note of what was sent.
    fn make(&mut self, call: Call<'_>) -> Report {
        let report = self.run(&[call]).last.unwrap_or(Report::NoLink);
        let announcing = matches!(call, Call::Announce { .. });
        let sent = &self.space[..report.len().min(LONGEST)];
        self.sums.note(self.known, sent, announcing);
        report
    }

    fn run(&mut self, calls: &[Call<'_>]) -> Seen {
        let mut seen = Seen::new();
        self.world
            .run(calls, &mut self.marks, &mut self.space, &mut seen);
        seen
    }

    fn open(&mut self, said: Said<'_>) -> io::Result<()> {
        match self.make(Call::Open) {
            Report::Done(_) => {
                self.openings = self.openings.saturating_add(1);
                println!(self.rt; "{said}: link {}", self.openings)
            }
            report => self.tell(said, report, LinkKind::Any),
        }
    }

    fn shut(&mut self, said: Said<'_>, link: u16) -> io::Result<()> {
        match self.make(Call::Shut { link }) {
            Report::Done(_) => println!(self.rt; "{said}: done"),
            report => self.tell(said, report, LinkKind::Any),
        }
    }

    fn tell(&self, said: Said<'_>, report: Report, needed: LinkKind) -> io::Result<()> {
        let sent = &self.space[..report.len().min(LONGEST)];
        let outcome = Outcome {
            report,
            sent,
            needed,
        };
        println!(self.rt; "{said}: {outcome}")
    }

    // A call that is answered in octets, which are explained below.
    fn answer(&mut self, said: Said<'_>, call: Call<'_>, needed: LinkKind) -> io::Result<()> {
        let report = self.make(call);
        self.tell(said, report, needed)?;
        self.explain(report.len())
    }

    // What was sent, element by element.
    fn explain(&self, len: usize) -> io::Result<()> {
        let sent = &self.space[..len.min(LONGEST)];
        if sent.is_empty() {
            return Ok(());
        }
        println!(self.rt; "  {}", TypeOf(sent))?;
        show_elements(&self.lines(), 0, sent)
    }

    fn lines(&self) -> Lines<'_, P> {
        Lines {
            rt: self.rt,
            known: self.known,
        }
    }

    // A message and its answer; of a faulty message the octet is marked at which it is so.
    fn message(&mut self, said: Said<'_>, link: u16, text: &str) -> io::Result<()> {
        let octets = octets_of(self.heap, text)?;
        let octets = octets.as_slice();
        let report = self.make(Call::Message { link, octets });
        self.tell(said, report, LinkKind::Open)?;
        let Report::Done(answered) = report else {
            return Ok(());
        };
        println!(self.rt; "  {} is answered:", TypeOf(octets))?;
        if answered.fault.is_some() {
            show_elements(&self.lines(), 0, octets)?;
        }
        self.explain(answered.len)
    }

    // So many periods, up to one that is refused.
    fn periods(&mut self, said: Said<'_>, count: u64) -> io::Result<()> {
        let mut accepted = 0u64;
        for _ in 0..count {
            let seen = self.run(&[Call::Period]);
            if let Some(refusal) = seen.refused {
                return println!(self.rt;
                    "{said}: accepted {accepted} refused {}",
                    u8::from(refusal)
                );
            }
            accepted = accepted.saturating_add(seen.accepted);
        }
        println!(self.rt; "{said}: accepted {accepted}")
    }

    // The figures of each cell on both channels, and below them why they differ.
    fn figures(&self, said: Said<'_>) -> io::Result<()> {
        for cell in 0..self.known.len() {
            let both = [Channel::Basic, Channel::Extended].map(|channel| self.figures_of(
                cell, channel,
            ));
            for figures in both {
                println!(self.rt; "{said} {cell} {figures}")?;
            }
            for figures in both {
                figures.explain(self.rt)?;
            }
        }
        Ok(())
    }

    fn figures_of(&self, cell: usize, channel: Channel) -> Figures {
        let sums = self.sums.of_cell(cell);
        Figures {
            channel,
            site: self.world.site.count(cell, channel),
            told: sums.on(channel),
            standing: self.standing(cell, channel),
            excepted: sums.excepted,
        }
    }

    // The counts of the messages that stand in a cell.
    fn standing(&self, cell: usize, channel: Channel) -> u64 {
        let messages = self.world.table.messages(cell).iter();
        messages
            .filter(|message| message.channel == channel)
            .fold(0u64, |sum, message| sum.saturating_add(message.count))
    }
}
