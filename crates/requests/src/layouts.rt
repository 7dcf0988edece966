// The elements of each request, in their order.
ghost use Rattle.std.proofs.Common.{ap};
ghost use Rattle.elements.specs.Codec.{turned};
ghost use Rattle.requests.specs.Requests.{ReferenceV, WriteReplaceV, reference, reference_meant, reference_to, write_meant, write_to, writing};

use crate::request::{Reference, WriteReplace};
use elements::elements::{Elements, May, Must};
use elements::layout::{Fields, Layout};
use elements::parts::{
    BroadcastsRequested, Category, KeepAlivePeriod, MessageIdentifier, MustChannel,
    NewSerialNumber, OldSerialNumber, RepetitionPeriod,
};
use lists::list_elements::CellList;
use pages::text::Text;

// A WRITE-REPLACE from its Channel Indicator on.
type WriteRest = (
    MustChannel,
    Must<Category>,
    Must<RepetitionPeriod>,
    Must<BroadcastsRequested>,
    Text,
);

pub type WriteElements = (
    Must<MessageIdentifier>,
    Must<NewSerialNumber>,
    May<OldSerialNumber>,
    Must<CellList>,
    WriteRest,
);

pub type ReferenceElements = (
    Must<MessageIdentifier>,
    Must<OldSerialNumber>,
    Must<CellList>,
    MustChannel,
);

pub type WriteFields<'a> = Fields<'a, WriteElements, WriteReplace<'a>>;

pub type ReferenceFields<'a> = Fields<'a, ReferenceElements, Reference<'a>>;

pub type ResetElements = Must<CellList>;

pub type KeepAliveElements = Must<KeepAlivePeriod>;

impl<'a> Layout<'a> for WriteReplace<'a> {
    type Parts = WriteElements;

    ghost Meaning = { WriteReplaceV };

    ghost meant = { write_meant };

    ghost codec = { writing };

    ghost faulty = { λ os at f e. ap (turned write_to) e };

    fn join(parts: <WriteElements as Elements<'a>>::Value) -> WriteReplace<'a> {
        let (identifier, new_serial, old_serial, cells, rest) = parts;
        let (channel, category, period, broadcasts, (coding, pages)) = rest;
        WriteReplace {
            identifier,
            new_serial,
            old_serial,
            cells,
            channel,
            category,
            period,
            broadcasts,
            coding,
            pages,
        }
    }

    fn parts(self) -> <WriteElements as Elements<'a>>::Value {
        let text = (self.coding, self.pages);
        let rest = (
            self.channel,
            self.category,
            self.period,
            self.broadcasts,
            text,
        );
        (
            self.identifier,
            self.new_serial,
            self.old_serial,
            self.cells,
            rest,
        )
    }
}

impl<'a> Layout<'a> for Reference<'a> {
    type Parts = ReferenceElements;

    ghost Meaning = { ReferenceV };

    ghost meant = { reference_meant };

    ghost codec = { reference };

    ghost faulty = { λ os at f e. ap (turned reference_to) e };

    fn join(parts: <ReferenceElements as Elements<'a>>::Value) -> Reference<'a> {
        let (identifier, serial, cells, channel) = parts;
        Reference {
            identifier,
            serial,
            cells,
            channel,
        }
    }

    fn parts(self) -> <ReferenceElements as Elements<'a>>::Value {
        (self.identifier, self.serial, self.cells, self.channel)
    }
}
