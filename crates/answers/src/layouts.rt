// The elements of each answer and indication, in their order. Ten impls alike, as the two of the requests: each
// names its fields in their order and has ghost members, which a macro or derive of our own can't write.
ghost use Rattle.std.proofs.Common.{ap};
ghost use Rattle.elements.specs.Codec.{turned};
ghost use Rattle.answers.specs.Answers.{doing, done_meant, DoneV, erring, error_meant, error_to, ErrorV, failing, failure_meant, failure_to, FailureV, kill_complete_meant, kill_complete_to, kill_completing, kill_failing, kill_failure_meant, kill_failure_to, KillCompleteV, KillFailureV, reset_failing, reset_failure_meant, reset_failure_to, ResetFailureV, restart_meant, restart_to, restarting, RestartV, status_complete_meant, status_complete_to, status_completing, status_failing, status_failure_meant, status_failure_to, StatusCompleteV, StatusFailureV, write_complete_meant, write_complete_to, write_completing, write_failing, write_failure_meant, write_failure_to, WriteCompleteV, WriteFailureV};

use crate::answer::{
    Done, ErrorIndication, Failure, KillComplete, KillFailure, ResetFailure, Restart,
    StatusComplete, StatusFailure, WriteReplaceComplete, WriteReplaceFailure,
};
use elements::elements::{Elements, May, Must};
use elements::faults::Fault;
use elements::layout::{Fields, Layout};
use elements::parts::{
    BroadcastMessageType, Cause, ChannelIndicator, MessageIdentifier, MustChannel, NewSerialNumber,
    OldSerialNumber, RecoveryIndication,
};
use elements::reader::Reader;
use elements::writer::Writer;
use lists::list_elements::{CellList, CompletedList, FailureList};

pub type ResetCompleteElements = Must<CellList>;

pub type KeepAliveCompleteElements = ();

type DoneElements = (May<CompletedList>, May<CellList>, May<ChannelIndicator>);

pub type WriteReplaceCompleteElements = (
    Must<MessageIdentifier>,
    Must<NewSerialNumber>,
    May<OldSerialNumber>,
    WhatWasDone,
);

pub type WriteReplaceCompleteFields<'a> = Fields<
    'a,
    WriteReplaceCompleteElements,
    WriteReplaceComplete<'a>,
>;

pub type WriteReplaceFailureElements = (
    Must<MessageIdentifier>,
    Must<NewSerialNumber>,
    May<OldSerialNumber>,
    Must<FailureList>,
    WhatWasDone,
);

pub type WriteReplaceFailureFields<'a> = Fields<
    'a,
    WriteReplaceFailureElements,
    WriteReplaceFailure<'a>,
>;

pub type KillCompleteElements = (Must<MessageIdentifier>, Must<OldSerialNumber>, WhatWasDone);

pub type KillCompleteFields<'a> = Fields<'a, KillCompleteElements, KillComplete<'a>>;

pub type KillFailureElements = (
    Must<MessageIdentifier>,
    Must<OldSerialNumber>,
    Must<FailureList>,
    WhatWasDone,
);

pub type KillFailureFields<'a> = Fields<'a, KillFailureElements, KillFailure<'a>>;

pub type StatusCompleteElements = (
    Must<MessageIdentifier>,
    Must<OldSerialNumber>,
    Must<CompletedList>,
    MustChannel,
);

pub type StatusCompleteFields<'a> = Fields<'a, StatusCompleteElements, StatusComplete<'a>>;

pub type StatusFailureElements = (
    Must<MessageIdentifier>,
    Must<OldSerialNumber>,
    Must<FailureList>,
    MustChannel,
    May<CompletedList>,
);

pub type StatusFailureFields<'a> = Fields<'a, StatusFailureElements, StatusFailure<'a>>;

pub type ResetFailureElements = (Must<FailureList>, May<CellList>);

pub type ResetFailureFields<'a> = Fields<'a, ResetFailureElements, ResetFailure<'a>>;

pub type RestartElements = (
    Must<CellList>,
    Must<BroadcastMessageType>,
    Must<RecoveryIndication>,
);

pub type RestartFields<'a> = Fields<'a, RestartElements, Restart<'a>>;

pub type FailureElements = (Must<FailureList>, Must<BroadcastMessageType>);

pub type FailureFields<'a> = Fields<'a, FailureElements, Failure<'a>>;

pub type ErrorIndicationElements = (
    Must<Cause>,
    May<MessageIdentifier>,
    May<NewSerialNumber>,
    May<OldSerialNumber>,
    May<ChannelIndicator>,
);

pub type ErrorIndicationFields<'a> = Fields<'a, ErrorIndicationElements, ErrorIndication>;

// What was done: three elements that four messages end with. It is no Layout: a struct inside another's elements names a
// lifetime that the type of these does not show, which the check does not cover.
pub struct WhatWasDone;

impl<'a> Elements<'a> for WhatWasDone {
    type Value = Done<'a>;

    ghost Meaning = { DoneV };

    ghost meant = { done_meant };

    ghost codec = { doing };

    fn read(reader: &mut Reader<'a>) -> Result<Done<'a>, Fault> {
        let (completed, cells, channel) = DoneElements::read(reader)?;
        Ok(Done {
            completed,
            cells,
            channel,
        })
    }

    fn width(value: Done<'a>) -> Option<usize> {
        DoneElements::width((value.completed, value.cells, value.channel))
    }

    fn put(writer: &mut Writer<'_>, value: Done<'a>) {
        DoneElements::put(writer, (value.completed, value.cells, value.channel));
    }
}

impl<'a> Layout<'a> for WriteReplaceComplete<'a> {
    type Parts = WriteReplaceCompleteElements;

    ghost Meaning = { WriteCompleteV };

    ghost meant = { write_complete_meant };

    ghost codec = { write_completing };

    ghost faulty = { λ os at f e. ap (turned write_complete_to) e };

    fn join(
        parts: <WriteReplaceCompleteElements as Elements<'a>>::Value,
    ) -> WriteReplaceComplete<'a> {
        let (identifier, new_serial, old_serial, done) = parts;
        WriteReplaceComplete {
            identifier,
            new_serial,
            old_serial,
            done,
        }
    }

    fn parts(self) -> <WriteReplaceCompleteElements as Elements<'a>>::Value {
        (self.identifier, self.new_serial, self.old_serial, self.done)
    }
}

impl<'a> Layout<'a> for WriteReplaceFailure<'a> {
    type Parts = WriteReplaceFailureElements;

    ghost Meaning = { WriteFailureV };

    ghost meant = { write_failure_meant };

    ghost codec = { write_failing };

    ghost faulty = { λ os at f e. ap (turned write_failure_to) e };

    fn join(
        parts: <WriteReplaceFailureElements as Elements<'a>>::Value,
    ) -> WriteReplaceFailure<'a> {
        let (identifier, new_serial, old_serial, failures, done) = parts;
        WriteReplaceFailure {
            identifier,
            new_serial,
            old_serial,
            failures,
            done,
        }
    }

    fn parts(self) -> <WriteReplaceFailureElements as Elements<'a>>::Value {
        (
            self.identifier,
            self.new_serial,
            self.old_serial,
            self.failures,
            self.done,
        )
    }
}

impl<'a> Layout<'a> for KillComplete<'a> {
    type Parts = KillCompleteElements;

    ghost Meaning = { KillCompleteV };

    ghost meant = { kill_complete_meant };

    ghost codec = { kill_completing };

    ghost faulty = { λ os at f e. ap (turned kill_complete_to) e };

    fn join(parts: <KillCompleteElements as Elements<'a>>::Value) -> KillComplete<'a> {
        let (identifier, serial, done) = parts;
        KillComplete {
            identifier,
            serial,
            done,
        }
    }

    fn parts(self) -> <KillCompleteElements as Elements<'a>>::Value {
        (self.identifier, self.serial, self.done)
    }
}

impl<'a> Layout<'a> for KillFailure<'a> {
    type Parts = KillFailureElements;

    ghost Meaning = { KillFailureV };

    ghost meant = { kill_failure_meant };

    ghost codec = { kill_failing };

    ghost faulty = { λ os at f e. ap (turned kill_failure_to) e };

    fn join(parts: <KillFailureElements as Elements<'a>>::Value) -> KillFailure<'a> {
        let (identifier, serial, failures, done) = parts;
        KillFailure {
            identifier,
            serial,
            failures,
            done,
        }
    }

    fn parts(self) -> <KillFailureElements as Elements<'a>>::Value {
        (self.identifier, self.serial, self.failures, self.done)
    }
}

impl<'a> Layout<'a> for StatusComplete<'a> {
    type Parts = StatusCompleteElements;

    ghost Meaning = { StatusCompleteV };

    ghost meant = { status_complete_meant };

    ghost codec = { status_completing };

    ghost faulty = { λ os at f e. ap (turned status_complete_to) e };

    fn join(parts: <StatusCompleteElements as Elements<'a>>::Value) -> StatusComplete<'a> {
        let (identifier, serial, completed, channel) = parts;
        StatusComplete {
            identifier,
            serial,
            completed,
            channel,
        }
    }

    fn parts(self) -> <StatusCompleteElements as Elements<'a>>::Value {
        (self.identifier, self.serial, self.completed, self.channel)
    }
}

impl<'a> Layout<'a> for StatusFailure<'a> {
    type Parts = StatusFailureElements;

    ghost Meaning = { StatusFailureV };

    ghost meant = { status_failure_meant };

    ghost codec = { status_failing };

    ghost faulty = { λ os at f e. ap (turned status_failure_to) e };

    fn join(parts: <StatusFailureElements as Elements<'a>>::Value) -> StatusFailure<'a> {
        let (identifier, serial, failures, channel, completed) = parts;
        StatusFailure {
            identifier,
            serial,
            failures,
            channel,
            completed,
        }
    }

    fn parts(self) -> <StatusFailureElements as Elements<'a>>::Value {
        (
            self.identifier,
            self.serial,
            self.failures,
            self.channel,
            self.completed,
        )
    }
}

impl<'a> Layout<'a> for ResetFailure<'a> {
    type Parts = ResetFailureElements;

    ghost Meaning = { ResetFailureV };

    ghost meant = { reset_failure_meant };

    ghost codec = { reset_failing };

    ghost faulty = { λ os at f e. ap (turned reset_failure_to) e };

    fn join(parts: <ResetFailureElements as Elements<'a>>::Value) -> ResetFailure<'a> {
        let (failures, cells) = parts;
        ResetFailure { failures, cells }
    }

    fn parts(self) -> <ResetFailureElements as Elements<'a>>::Value {
        (self.failures, self.cells)
    }
}

impl<'a> Layout<'a> for Restart<'a> {
    type Parts = RestartElements;

    ghost Meaning = { RestartV };

    ghost meant = { restart_meant };

    ghost codec = { restarting };

    ghost faulty = { λ os at f e. ap (turned restart_to) e };

    fn join(parts: <RestartElements as Elements<'a>>::Value) -> Restart<'a> {
        let (cells, broadcast, recovery) = parts;
        Restart {
            cells,
            broadcast,
            recovery,
        }
    }

    fn parts(self) -> <RestartElements as Elements<'a>>::Value {
        (self.cells, self.broadcast, self.recovery)
    }
}

impl<'a> Layout<'a> for Failure<'a> {
    type Parts = FailureElements;

    ghost Meaning = { FailureV };

    ghost meant = { failure_meant };

    ghost codec = { failing };

    ghost faulty = { λ os at f e. ap (turned failure_to) e };

    fn join(parts: <FailureElements as Elements<'a>>::Value) -> Failure<'a> {
        let (failures, broadcast) = parts;
        Failure {
            failures,
            broadcast,
        }
    }

    fn parts(self) -> <FailureElements as Elements<'a>>::Value {
        (self.failures, self.broadcast)
    }
}

impl<'a> Layout<'a> for ErrorIndication {
    type Parts = ErrorIndicationElements;

    ghost Meaning = { ErrorV };

    ghost meant = { error_meant };

    ghost codec = { erring };

    ghost faulty = { λ os at f e. ap (turned error_to) e };

    fn join(parts: <ErrorIndicationElements as Elements<'a>>::Value) -> ErrorIndication {
        let (cause, identifier, new_serial, old_serial, channel) = parts;
        ErrorIndication {
            cause,
            identifier,
            new_serial,
            old_serial,
            channel,
        }
    }

    fn parts(self) -> <ErrorIndicationElements as Elements<'a>>::Value {
        (
            self.cause,
            self.identifier,
            self.new_serial,
            self.old_serial,
            self.channel,
        )
    }
}
