// Offering the messages of cells to a site.
ghost use Rattle.std.specs.Prelude.{◌≡◌, ◌^◌, ◌<◌, map};
ghost use Rattle.std.specs.List.{AllByRecursion};
ghost use Rattle.site.specs.Messages.{aired};
ghost use Rattle.rows.specs.Held.{rows_of};
ghost use Rattle.rows.specs.Sweep.{Served, Turn, Turns, due, lowered};
ghost use Rattle.rows.specs.Texts.{aired_for, text_of};

use crate::content::Content;
use crate::row::Row;
use crate::rows::Rows;
use site::Site;
use site::message::CbsMessage;

fn is_due(row: &Row) -> bool
    ensures { result ≡ due row.now }
{
    row.wait == 0 && (row.requested == 0 || row.count < u64::from(row.requested))
}

// What goes out for a message. Past the contents a message without pages: no row of a table has such a slot,
// so that an Option would only be unwrapped. No From: it is made of a message and the contents.
fn message_of<'a>(row: &Row, contents: &'a [Content]) -> CbsMessage<'a>
    ensures { aired result ≡ aired_for (map text_of contents.now) row.now }
{
    let mut message = CbsMessage {
        serial: row.serial,
        identifier: row.identifier,
        coding: 0,
        pages: &[],
    };
    if let Some(content) = contents.get(usize::from(row.slot)) {
        message.coding = content.coding();
        message.pages = content.pages();
    }
    message
}

// Each broadcast adds one to a count, so that no bound on it holds of every message: only who calls knows how
// many periods came before. The contents and the site stay two arguments: the ones are read, the other is
// changed.
fn offer<S: Site>(row: &mut Row, cell: usize, contents: &[Content], site: &mut S)
    requires { row.old.count < 2 ^ 63 }
    ensures { Turn S.Site.model S.Site.steps (map text_of contents.now) cell row.old site.old row.new site.new }
{
    if is_due(row) && site.broadcast(cell, row.channel, message_of(row, contents)) {
        row.count += 1;
        row.wait = row.period;
    }
}

fn lower(row: &mut Row)
    ensures { row.new ≡ lowered row.old }
{
    row.wait = row.wait.saturating_sub(1);
}

// One message in a period: its wait falls, and it is offered once it is due.
fn take_turn<S: Site>(row: &mut Row, cell: usize, contents: &[Content], site: &mut S)
    requires { row.old.count < 2 ^ 63 }
    ensures { Turn S.Site.model S.Site.steps (map text_of contents.now) cell (lowered row.old) site.old row.new site.new }
{
    lower(row);
    offer(row, cell, contents, site);
}

// The messages of a cell in a period, the oldest first.
pub fn serve<S: Site>(rows: &mut [Row], cell: usize, contents: &[Content], site: &mut S)
    requires { AllByRecursion (λ r. r.count < 2 ^ 63) rows.old }
    ensures { Turns S.Site.model S.Site.steps (map text_of contents.now) cell rows.old site.old rows.new site.new }
{
    for row in rows.iter_mut() {
        take_turn(row, cell, contents, site);
    }
}

// The messages of all cells in a period, in the order of the cells' numbers.
pub fn serve_all<S: Site>(cells: &mut [Rows], contents: &[Content], site: &mut S)
    requires { AllByRecursion (λ rs. AllByRecursion (λ r. r.count < 2 ^ 63) rs) (map rows_of cells.old) }
    ensures { Served S.Site.model S.Site.steps (map text_of contents.now) (map rows_of cells.old) site.old (map rows_of cells.new) site.new }
{
    for (cell, rows) in cells.iter_mut().enumerate() {
        rows.serve(cell, contents, site);
    }
}
