// A request over what a Cell List came to.
ghost use Rattle.std.specs.Prelude.{◌≡◌, ◌+◌, ◌<◌, ◌≤◌, map, length};
ghost use Rattle.std.specs.List.{AllByRecursion};
ghost use Rattle.rows.specs.Held.{rows_of};
ghost use Rattle.naming.specs.Namings.{IsThere};
ghost use Rattle.table.specs.Handling.{capability_at, comes_of, handled, request_on, rows_on, stage};
ghost use Rattle.table.specs.Pool.{PassedHoldNone};

use crate::outcome::Outcome;
use crate::pool::Search;
use crate::request::CellRequest;
use bounded::list::Bounded;
use cells::cell::{Capability, Cell};
use naming::naming::Naming;
use rows::rows::Rows;
use site::Site;

// NoChannel past the list: no naming names a cell there, so that an Option would only be unwrapped.
fn capability_at(cells: &[Cell], cell: usize) -> Capability
    ensures { result ≡ capability_at cells.now cell }
{
    cells
        .get(cell)
        .map_or(Capability::NoChannel, |found| found.capability)
}

// One naming. The rows are lent for writing, the cells and the site for reading alone: a struct of the three
// would be made anew at each call, since the rows are lent on.
fn handle_one<R: CellRequest, S: Site>(
    request: &mut R,
    rows: &mut [Rows],
    search: &mut Search,
    cells: &[Cell],
    site: &S,
    naming: Naming,
) -> Outcome
    requires there { IsThere (length rows.old) naming }
    requires passed { PassedHoldNone search.old.passed (map rows_of rows.old) }
    ensures comes { result ≡ comes_of R.CellRequest.acts cells.now (S.Site.model site.now).opened request.old (map rows_of rows.old) naming }
    ensures rows { map rows_of rows.new ≡ rows_on R.CellRequest.acts cells.now (S.Site.model site.now).opened request.old (map rows_of rows.old) naming }
    ensures request { request.new ≡ request_on R.CellRequest.acts cells.now (S.Site.model site.now).opened request.old (map rows_of rows.old) naming }
    ensures passed { PassedHoldNone search.new.passed (map rows_of rows.new) }
{
    match naming {
        Naming::Cell(cell) => {
            let capability = capability_at(cells, cell);
            request.apply(rows, search, cell, capability, site.is_open(cell))
        }
        Naming::NoCell(identity) => Outcome::no_cell(identity),
    }
}

// One naming after the other; what comes of each goes to `out`. A for, no map: what makes the outcomes
// changes the rows and the request.
pub fn handle<R: CellRequest, S: Site, const N: usize>(
    request: &mut R,
    rows: &mut [Rows],
    cells: &[Cell],
    site: &S,
    namings: &[Naming],
    out: &mut Bounded<Outcome, N>,
)
    requires there { AllByRecursion (IsThere (length rows.old)) namings.now }
    requires room { length out.old + length namings.now ≤ N }
    ensures handled { stage request.new (map rows_of rows.new) out.new ≡ handled R.CellRequest.acts cells.now (S.Site.model site.now).opened (stage request.old (map rows_of rows.old) out.old) namings.now }
    ensures len { length out.new ≡ length out.old + length namings.now }
{
    let mut search = Search::new();
    for naming in namings {
        let outcome = handle_one(request, rows, &mut search, cells, site, *naming);
        out.push_reserved(outcome);
    }
}
