// The twelve answers and indications.
use crate::entries_given::{
    COUNT_BY_CI, COUNTS, FAILURES, FAILURES_OF_ALL_FORMS, ONE_CI, TWO_CELLS,
};
use crate::line::show;
use answers::answer::{
    Answer, Done, ErrorIndication, Failure, KillComplete, KillFailure, ResetComplete, ResetFailure,
    Restart, StatusComplete, StatusFailure, WriteReplaceComplete, WriteReplaceFailure,
};
use cbsp::channel::Channel;
use elements::broadcast::BroadcastType;
use elements::cause::Cause;
use elements::recovery::Recovery;
use lists::cells::Cells;
use lists::entries::Entries;
use messages::message::Message;
use std::io;

pub fn show_write_answers(rt: &impl Print) -> io::Result<()> {
    let begun = WriteReplaceComplete {
        identifier: 0x0032,
        new_serial: 0x1010,
        old_serial: None,
        done: Done {
            completed: None,
            cells: Some(Cells::Named(Entries::Given(&TWO_CELLS))),
            channel: Some(Channel::Basic),
        },
    };
    show(
        rt,
        "write-replace complete",
        Message::Answer(Answer::WriteReplaceComplete(begun)),
    )?;
    let replaced = WriteReplaceFailure {
        identifier: 0x0032,
        new_serial: 0x1020,
        old_serial: Some(0x1010),
        failures: Entries::Given(&FAILURES_OF_ALL_FORMS),
        done: Done {
            completed: Some(Entries::Given(&COUNTS)),
            cells: Some(Cells::Named(Entries::Given(&ONE_CI))),
            channel: Some(Channel::Extended),
        },
    };
    show(
        rt,
        "write-replace failure",
        Message::Answer(Answer::WriteReplaceFailure(replaced)),
    )
}

pub fn show_kill_answers(rt: &impl Print) -> io::Result<()> {
    let ended = KillComplete {
        identifier: 0x0032,
        serial: 0x1010,
        done: Done {
            completed: Some(Entries::Given(&COUNTS)),
            cells: None,
            channel: Some(Channel::Basic),
        },
    };
    show(
        rt,
        "kill complete",
        Message::Answer(Answer::KillComplete(ended)),
    )?;
    let failed = KillFailure {
        identifier: 0x0032,
        serial: 0x1010,
        failures: Entries::Given(&FAILURES),
        done: Done {
            completed: Some(Entries::Given(&COUNT_BY_CI)),
            cells: None,
            channel: None,
        },
    };
    show(
        rt,
        "kill failure",
        Message::Answer(Answer::KillFailure(failed)),
    )
}

pub fn show_status_answers(rt: &impl Print) -> io::Result<()> {
    let counted = StatusComplete {
        identifier: 0x0032,
        serial: 0x1010,
        completed: Entries::Given(&COUNT_BY_CI),
        channel: Channel::Extended,
    };
    show(
        rt,
        "message status query complete",
        Message::Answer(Answer::MessageStatusQueryComplete(counted)),
    )?;
    let missed = StatusFailure {
        identifier: 0x0032,
        serial: 0x1010,
        failures: Entries::Given(&FAILURES),
        channel: Channel::Basic,
        completed: Some(Entries::Given(&COUNTS)),
    };
    show(
        rt,
        "message status query failure",
        Message::Answer(Answer::MessageStatusQueryFailure(missed)),
    )
}

fn show_reset_answers(rt: &impl Print) -> io::Result<()> {
    let emptied = ResetComplete {
        cells: Cells::Named(Entries::Given(&TWO_CELLS)),
    };
    show(
        rt,
        "reset complete",
        Message::Answer(Answer::ResetComplete(emptied)),
    )?;
    let partly = ResetFailure {
        failures: Entries::Given(&FAILURES),
        cells: Some(Cells::Named(Entries::Given(&ONE_CI))),
    };
    show(
        rt,
        "reset failure",
        Message::Answer(Answer::ResetFailure(partly)),
    )
}

fn show_errors(rt: &impl Print) -> io::Result<()> {
    let bare = ErrorIndication {
        cause: Cause::ParameterValueInvalid,
        identifier: None,
        new_serial: None,
        old_serial: None,
        channel: None,
    };
    show(
        rt,
        "error indication",
        Message::Answer(Answer::ErrorIndication(bare)),
    )?;
    let full = ErrorIndication {
        cause: Cause::BscMemoryExceeded,
        identifier: Some(0x0032),
        new_serial: Some(0x1010),
        old_serial: Some(0x100f),
        channel: Some(Channel::Extended),
    };
    show(
        rt,
        "error indication full",
        Message::Answer(Answer::ErrorIndication(full)),
    )
}

pub fn show_indications(rt: &impl Print) -> io::Result<()> {
    show_reset_answers(rt)?;
    let back = Restart {
        cells: Cells::Named(Entries::Given(&TWO_CELLS)),
        broadcast: BroadcastType::Ordinary,
        recovery: Recovery::Lost,
    };
    show(rt, "restart", Message::Answer(Answer::Restart(back)))?;
    let lost = Failure {
        failures: Entries::Given(&FAILURES),
        broadcast: BroadcastType::Emergency,
    };
    show(rt, "failure", Message::Answer(Answer::Failure(lost)))?;
    show_errors(rt)?;
    show(
        rt,
        "keep-alive complete",
        Message::Answer(Answer::KeepAliveComplete),
    )
}
