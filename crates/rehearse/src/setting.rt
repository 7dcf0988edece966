// The setting of a rehearsal: the cells and the site, which are said before all else.
use crate::octets::octets_of;
use crate::rehearsal::Rehearsal;
use crate::script::{Order, SiteKind, Unclear, read_line};
use crate::sums::Sums;
use cbsp::framing::LONGEST;
use cells::file::MOST_CELLS;
use cells::list::CellList;
use controller::links::held::HeldLinks;
use controller::state::Table;
use controller::world::World;
use frame::frame_site::{FrameSite, MEMORY};
use site::Site;
use site::drill::DrillSite;
use std::alloc::{AllocError, Global};
use std::io;

// A place for the link of every opening.
const LINKS: usize = 65_536;

#[derive(Drop)]
pub struct Setting {
    heap: Global,
    list: CellList,
    site: SiteKind,
}

// What a line of the script asks for, nothing where it says nothing.
fn order_in(line: &[u8]) -> Result<Option<(&str, Order<'_>)>, Unclear> {
    let text = str::from_utf8(line).map_err(|_| Unclear::NoText)?;
    Ok(read_line(text)?.map(|order| (text, order)))
}

fn tell_unclear(rt: &impl Print, place: usize, why: Unclear) -> io::Result<()> {
    let number = place.saturating_add(1);
    println!(rt; "line {number}: {why}")
}

impl Setting {
    pub fn new(heap: Global) -> Result<Setting, AllocError> {
        Ok(Setting {
            heap,
            list: CellList::new(heap)?,
            site: SiteKind::Drill,
        })
    }

    // Reads the lines that say cells and site; the place of the first that says another thing.
    pub fn read(&mut self, rt: &impl Print, script: &[u8]) -> io::Result<usize> {
        let mut place = 0;
        for line in script.split(|octet| *octet == b'\n') {
            match order_in(line) {
                Ok(None) => {}
                Ok(Some((_, Order::Cells(text)))) => self.read_cells(rt, text)?,
                Ok(Some((_, Order::Site(kind)))) => self.set_site(rt, kind)?,
                Ok(Some(_)) => return Ok(place),
                Err(why) => tell_unclear(rt, place, why)?,
            }
            place = place.saturating_add(1);
        }
        Ok(place)
    }

    fn read_cells(&mut self, rt: &impl Print, text: &str) -> io::Result<()> {
        let file = octets_of(self.heap, text)?;
        match self.list.read(file.as_slice()) {
            Ok(1) => println!(rt; "cells: 1 cell"),
            Ok(count) => println!(rt; "cells: {count} cells"),
            Err(refusal) => println!(rt; "cells: refused {}", u8::from(refusal)),
        }
    }

    fn set_site(&mut self, rt: &impl Print, kind: SiteKind) -> io::Result<()> {
        self.site = kind;
        match kind {
            SiteKind::Drill => println!(rt; "site drill: new"),
            SiteKind::Frame => println!(rt; "site frame: new"),
        }
    }

    // Carries out the lines from a place on, over the site that was said.
    pub fn rehearse(&self, rt: &impl Print, script: &[u8], begun: usize) -> anyhow::Result<()> {
        match self.site {
            SiteKind::Drill => self.rehearse_over(rt, DrillSite::new(), script, begun),
            SiteKind::Frame => {
                let mut memory = Vec::new(self.heap);
                memory.resize(MEMORY, 0)?;
                self.rehearse_over(rt, FrameSite::new(memory.as_mut_slice()), script, begun)
            }
        }
    }

    fn rehearse_over<S: Site + Drop>(
        &self,
        rt: &impl Print,
        site: S,
        script: &[u8],
        begun: usize,
    ) -> anyhow::Result<()> {
        let table = Table::new(self.heap, &self.list)?;
        let links = HeldLinks::new(self.heap, LINKS)?;
        let mut world = World { table, site, links };
        let told = self.carry_out(rt, &mut world, script, begun);
        let World {
            table: _,
            site: _,
            links,
        } = world;
        links.end();
        Ok(told?)
    }

    fn carry_out<S: Site>(
        &self,
        rt: &impl Print,
        world: &mut World<S>,
        script: &[u8],
        begun: usize,
    ) -> io::Result<()> {
        let mut rehearsal = Rehearsal {
            rt,
            heap: self.heap,
            known: self.list.cells(),
            world,
            openings: 0,
            sums: Sums::new(),
            marks: [0; MOST_CELLS],
            space: [0; LONGEST],
        };
        let lines = script.split(|octet| *octet == b'\n').enumerate();
        for (place, line) in lines.skip(begun) {
            match order_in(line) {
                Ok(None) => {}
                Ok(Some((_, Order::Cells(_) | Order::Site(_)))) => {
                    tell_unclear(rt, place, Unclear::TooLate)?
                }
                Ok(Some((text, order))) => rehearsal.carry_out(text, order)?,
                Err(why) => tell_unclear(rt, place, why)?,
            }
        }
        Ok(())
    }
}
