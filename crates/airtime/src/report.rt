// Lines for a reader.
use cbsp::channel::Channel;
use site::Site;
use site::message::PAGE;

// One cell of a site.
fn report_cell<S: Site>(rt: &HostRuntime, site: &S, cell: usize) -> anyhow::Result<()> {
    let state = if site.is_open(cell) { "open" } else { "closed" };
    let room = site.room(cell);
    let basic = site.count(cell, Channel::Basic);
    let extended = site.count(cell, Channel::Extended);
    println!(rt; "  cell {cell} {state}, room {room}, basic {basic}, extended {extended}")?;
    Ok(())
}

// The first cells of a site. By number: a site is asked by a cell's number, and has no slice of cells.
pub fn report<S: Site>(rt: &HostRuntime, site: &S, cells: usize) -> anyhow::Result<()> {
    for cell in 0..cells {
        report_cell(rt, site, cell)?;
    }
    Ok(())
}

// Not the hexadecimal of shown: airtime stands on the sites, not on shown, and a space follows each octet here.
fn show_octets(rt: &HostRuntime, octets: &[u8]) -> anyhow::Result<()> {
    for octet in octets {
        print!(rt; "{octet:02x} ")?;
    }
    Ok(())
}

fn show_text(rt: &HostRuntime, octets: &[u8]) -> anyhow::Result<()> {
    for octet in octets.iter().filter(|octet| **octet != 0) {
        let letter = char::from(*octet);
        print!(rt; "{letter}")?;
    }
    Ok(())
}

// A page: its heading of six octets, and the text of its content.
fn show_page(rt: &HostRuntime, page: &[u8]) -> anyhow::Result<()> {
    if let Some((heading, content)) = page.split_at_checked(6) {
        print!(rt; "    ")?;
        show_octets(rt, heading)?;
        show_text(rt, content)?;
        println!(rt; "")?;
    }
    Ok(())
}

// The broadcast that begins at a place; answers the octets behind it.
fn show_record<'a>(rt: &HostRuntime, at: usize, octets: &'a [u8]) -> anyhow::Result<&'a [u8]> {
    let [cell, channel, pages @ ..] = octets else {
        return Ok(octets);
    };
    let Some(parameter) = pages.get(5) else {
        return Ok(octets);
    };
    let total = usize::from(parameter & 0x0f);
    println!(rt; "  octet {at}: cell {cell}, channel {channel:02x}, pages {total}")?;
    for page in pages.chunks(PAGE).take(total) {
        show_page(rt, page)?;
    }
    Ok(pages.get(PAGE * total..).unwrap_or(&[]))
}

// So many broadcasts from the front of a frame memory on.
pub fn show_frames(rt: &HostRuntime, memory: &[u8], broadcasts: usize) -> anyhow::Result<()> {
    let mut behind = memory;
    for _ in 0..broadcasts {
        let at = memory.len().saturating_sub(behind.len());
        behind = show_record(rt, at, behind)?;
    }
    let at = memory.len().saturating_sub(behind.len());
    println!(rt; "  octet {at}: ..")?;
    Ok(())
}
