// The reply to each request, from its lists. An empty list is absent. A function for each, since each has elements of its
// own, and takes the lists that it has.
ghost use Rattle.std.specs.Prelude.{◌≡◌, [], ◌∷◌, map};
ghost use Rattle.answers.specs.Answers.{answer_meant, done_meant};
ghost use Rattle.elements.specs.Octets.{mapped};
ghost use Rattle.lists.specs.CellLists.{cells_meant};
ghost use Rattle.lists.specs.Kinds.{cell_meant, completed_meant, failed_meant};
ghost use Rattle.lists.specs.Listed.{listed};
ghost use Rattle.requests.specs.Requests.{reference_meant, write_meant};
ghost use Rattle.answering.specs.Replies.{done_in, failure_of, kill_reply, query_reply, reset_reply, restart_for, some_cells, some_list, write_reply};

use answers::answer::{
    Answer, Done, Failure, KillComplete, KillFailure, ResetComplete, ResetFailure, Restart,
    StatusComplete, StatusFailure, WriteReplaceComplete, WriteReplaceFailure,
};
use cbsp::channel::Channel;
use elements::broadcast::BroadcastType;
use elements::recovery::Recovery;
use lists::cells::Cells;
use lists::entries::Entries;
use lists::entry::ListEntry;
use lists::kinds::{CellEntry, CompletedEntry, FailedEntry};
use requests::request::{Reference, WriteReplace};

// The list of a slice's entries.
fn some_entries<'a, E: ListEntry>(entries: &'a [E]) -> Option<Entries<'a, E>>
    ensures { mapped (listed E.ListEntry.kind E.ListEntry.meant) result ≡ some_list (map E.ListEntry.meant entries.now) }
{
    (!entries.is_empty()).then_some(Entries::Given(entries))
}

fn some_cells<'a>(entries: &'a [CellEntry]) -> Option<Cells<'a>>
    ensures { mapped cells_meant result ≡ some_cells (map cell_meant entries.now) }
{
    some_entries(entries).map(|given| Cells::Named(given))
}

// No From: it is made of three.
fn done_in<'a>(
    channel: Channel,
    completed: &'a [CompletedEntry],
    begun: &'a [CellEntry],
) -> Done<'a>
    ensures { done_meant result ≡ done_in channel (map completed_meant completed.now) (map cell_meant begun.now) }
{
    Done {
        completed: some_entries(completed),
        cells: some_cells(begun),
        channel: Some(channel),
    }
}

// The reply to WRITE-REPLACE.
pub fn write_reply<'a>(
    request: WriteReplace<'_>,
    begun: &'a [CellEntry],
    completed: &'a [CompletedEntry],
    failed: &'a [FailedEntry],
) -> Answer<'a>
    ensures { answer_meant result ≡ write_reply (write_meant request.entry) (map cell_meant begun.now) (map completed_meant completed.now) (map failed_meant failed.now) }
{
    let done = done_in(request.channel, completed, begun);
    if failed.is_empty() {
        return Answer::WriteReplaceComplete(WriteReplaceComplete {
            identifier: request.identifier,
            new_serial: request.new_serial,
            old_serial: request.old_serial,
            done,
        });
    }
    Answer::WriteReplaceFailure(WriteReplaceFailure {
        identifier: request.identifier,
        new_serial: request.new_serial,
        old_serial: request.old_serial,
        failures: Entries::Given(failed),
        done,
    })
}

// The reply to KILL.
pub fn kill_reply<'a>(
    request: Reference<'_>,
    completed: &'a [CompletedEntry],
    failed: &'a [FailedEntry],
) -> Answer<'a>
    ensures { answer_meant result ≡ kill_reply (reference_meant request.entry) (map completed_meant completed.now) (map failed_meant failed.now) }
{
    let done = done_in(request.channel, completed, &[]);
    if failed.is_empty() {
        return Answer::KillComplete(KillComplete {
            identifier: request.identifier,
            serial: request.serial,
            done,
        });
    }
    Answer::KillFailure(KillFailure {
        identifier: request.identifier,
        serial: request.serial,
        failures: Entries::Given(failed),
        done,
    })
}

// The reply to MESSAGE STATUS QUERY.
pub fn query_reply<'a>(
    request: Reference<'_>,
    completed: &'a [CompletedEntry],
    failed: &'a [FailedEntry],
) -> Answer<'a>
    ensures { answer_meant result ≡ query_reply (reference_meant request.entry) (map completed_meant completed.now) (map failed_meant failed.now) }
{
    if failed.is_empty() {
        return Answer::MessageStatusQueryComplete(StatusComplete {
            identifier: request.identifier,
            serial: request.serial,
            completed: Entries::Given(completed),
            channel: request.channel,
        });
    }
    Answer::MessageStatusQueryFailure(StatusFailure {
        identifier: request.identifier,
        serial: request.serial,
        failures: Entries::Given(failed),
        channel: request.channel,
        completed: some_entries(completed),
    })
}

// The reply to RESET.
pub fn reset_reply<'a>(begun: &'a [CellEntry], failed: &'a [FailedEntry]) -> Answer<'a>
    ensures { answer_meant result ≡ reset_reply (map cell_meant begun.now) (map failed_meant failed.now) }
{
    if failed.is_empty() {
        return Answer::ResetComplete(ResetComplete {
            cells: Cells::Named(Entries::Given(begun)),
        });
    }
    Answer::ResetFailure(ResetFailure {
        failures: Entries::Given(failed),
        cells: some_cells(begun),
    })
}

// RESTART for some cells.
pub fn restart_for<'a>(cells: &'a [CellEntry], recovery: Recovery) -> Answer<'a>
    ensures { answer_meant result ≡ restart_for (map cell_meant cells.now) recovery }
{
    Answer::Restart(Restart {
        cells: Cells::Named(Entries::Given(cells)),
        broadcast: BroadcastType::Ordinary,
        recovery,
    })
}

// FAILURE for cells that do not broadcast.
pub fn failure_for<'a>(failed: &'a [FailedEntry]) -> Answer<'a>
    ensures { answer_meant result ≡ failure_of (map failed_meant failed.now) }
{
    Answer::Failure(Failure {
        failures: Entries::Given(failed),
        broadcast: BroadcastType::Ordinary,
    })
}
