// Runs a period over each kind of site and shows what it did: the counts, and the frame memory line by line.
#![tactic(auto)]

mod report;

use cbsp::channel::Channel;
use frame::frame_site::{FrameSite, MEMORY, check_memory};
use frame::period::{air_frames, first_frames};
use report::{report, show_frames};
use site::Site;
use site::drill::DrillSite;
use site::message::{CONTENT, CbsMessage, Page};
use site::period::{Offer, air};
use std::alloc::{AllocError, Global};

// A page of text, filled up with zeros.
fn text_page(text: &[u8]) -> Page {
    let mut content = [0; CONTENT];
    let used = text.len().min(CONTENT);
    content[..used].copy_from_slice(&text[..used]);
    Page { content }
}

// Both messages in each of ten cells, cell by cell. A for: each extend may find no memory.
fn all_offers<'a>(
    heap: Global,
    road: CbsMessage<'a>,
    water: CbsMessage<'a>,
) -> Result<Vec<Offer<'a>>, AllocError> {
    let mut offers = Vec::new(heap);
    for cell in 0..10 {
        offers.extend([
            Offer {
                cell,
                channel: Channel::Basic,
                message: road,
            },
            Offer {
                cell,
                channel: Channel::Extended,
                message: water,
            },
        ])?;
    }
    Ok(offers)
}

// A period of a new drill site with one cell closed.
fn drill(rt: &HostRuntime, offers: &[Offer<'_>]) -> anyhow::Result<()> {
    let mut site = DrillSite::new();
    site.close(2);
    let done = air(&mut site, offers);
    println!(rt; "drill site, broadcasts done: {done}")?;
    report(rt, &site, 10)
}

// What the first call on a frame memory answers; 0 for no refusal, as a host in C is answered.
fn check(rt: &HostRuntime, memory: &[u8]) -> anyhow::Result<()> {
    let refusal = check_memory(memory).err();
    let number = refusal.map_or(0, |refusal| u8::from(refusal));
    let octets = memory.len();
    println!(rt; "frame memory of {octets} octets, refusal: {number}")?;
    Ok(())
}

// A period of a new frame site with one cell closed.
fn frame(rt: &HostRuntime, memory: &mut [u8], offers: &[Offer<'_>]) -> anyhow::Result<usize> {
    check(rt, memory)?;
    let mut site = FrameSite::new(memory);
    site.close(2);
    let done = air_frames(&mut site, offers);
    println!(rt; "frame site, broadcasts done: {done}")?;
    report(rt, &site, 10)?;
    Ok(done)
}

// A frame memory through three sites: a whole period; one broadcast in front of what stays behind it;
// and, with an octet taken away, a period that is counted and not written.
fn frames(rt: &HostRuntime, offers: &[Offer<'_>], once: &[Offer<'_>]) -> anyhow::Result<()> {
    let mut memory = vec![in rt.alloc(); 0u8; MEMORY]?;
    let done = frame(rt, memory.as_mut_slice(), offers)?;
    show_frames(rt, memory.as_slice(), done)?;
    let again = first_frames(memory.as_mut_slice(), once);
    println!(rt; "another frame site, broadcasts done: {again}")?;
    show_frames(rt, memory.as_slice(), 3)?;
    memory.truncate(MEMORY - 1);
    frame(rt, memory.as_mut_slice(), offers)?;
    show_frames(rt, memory.as_slice(), 1)
}

// The last cell with more pages than go on the air, and a cell that is none.
fn edges(rt: &HostRuntime) -> anyhow::Result<()> {
    let mut memory = vec![in rt.alloc(); 0u8; MEMORY]?;
    let pages = [text_page(b"One of seventeen pages."); 17];
    let message = CbsMessage {
        serial: 0x4000,
        identifier: 52,
        coding: 0x44,
        pages: &pages,
    };
    let offers = [
        Offer {
            cell: 64,
            channel: Channel::Extended,
            message,
        },
        Offer {
            cell: 63,
            channel: Channel::Extended,
            message,
        },
    ];
    let done = first_frames(memory.as_mut_slice(), &offers);
    println!(rt; "cells 64 and 63, broadcasts done: {done}")?;
    show_frames(rt, memory.as_slice(), done)
}

fn main(rt: HostRuntime) -> anyhow::Result<()> {
    let road_pages = [text_page(b"Road 7 is closed from 20:00 to 06:00.")];
    let water_pages = [
        text_page(b"High water at 14:10."),
        text_page(b"The low road is shut until 16:00."),
        text_page(b"Use the bridge."),
    ];
    let road = CbsMessage {
        serial: 0x1010,
        identifier: 50,
        coding: 0x44,
        pages: &road_pages,
    };
    let water = CbsMessage {
        serial: 0x2031,
        identifier: 51,
        coding: 0x44,
        pages: &water_pages,
    };
    let offers = all_offers(rt.alloc(), road, water)?;
    let once = [Offer {
        cell: 9,
        channel: Channel::Basic,
        message: road,
    }];
    drill(&rt, offers.as_slice())?;
    frames(&rt, offers.as_slice(), &once)?;
    edges(&rt)
}
