// The elements of fixed length that messages are made of.
ghost use Rattle.std.specs.Prelude.{◌≡◌, ℕ, ◌≤◌, Option};
ghost use Rattle.cbsp.specs.Channels.{channel_code, channel_of};
ghost use Rattle.cbsp.specs.declared.channel.Channel.{Channel as OneChannel};
ghost use Rattle.elements.specs.Codec.{channel as channel_codec, coded_body, number_body, octet_body};

use crate::broadcast::BroadcastType;
use crate::coded::Coded;
use crate::element::{Element, Identified};
use crate::elements::{Elements, Must, limit};
use crate::faults::{ElementFault, Fault};
use crate::reader::Reader;
use crate::recovery::Recovery;
use crate::writer::Writer;
use crate::{category, cause};
use cbsp::channel;
use std::marker::PhantomData;

// A number of two octets from LO to HI.
pub struct Number<const ID: u8, const LO: u16, const HI: u16>;

impl<const ID: u8, const LO: u16, const HI: u16> Identified for Number<ID, LO, HI> {
    const ID: u8 = ID;

    ghost ID = { ID };
}

impl<'a, const ID: u8, const LO: u16, const HI: u16> Element<'a> for Number<ID, LO, HI> {
    type Value = u16;

    ghost Meaning = { ℕ };

    ghost meant = { λ n. n };

    ghost body = { number_body LO HI };

    fn read(reader: &mut Reader<'a>, start: usize) -> Result<u16, ElementFault> {
        reader.number(start, LO, HI)
    }

    fn width(value: u16) -> Option<usize> {
        (LO..=HI).contains(&value).then_some(2)
    }

    fn put(writer: &mut Writer<'_>, value: u16) {
        writer.put_two(value);
    }
}

// An octet from LO to HI.
pub struct Octet<const ID: u8, const LO: u8, const HI: u8>;

impl<const ID: u8, const LO: u8, const HI: u8> Identified for Octet<ID, LO, HI> {
    const ID: u8 = ID;

    ghost ID = { ID };
}

impl<'a, const ID: u8, const LO: u8, const HI: u8> Element<'a> for Octet<ID, LO, HI> {
    type Value = u8;

    ghost Meaning = { ℕ };

    ghost meant = { λ n. n };

    ghost body = { octet_body LO HI };

    fn read(reader: &mut Reader<'a>, start: usize) -> Result<u8, ElementFault> {
        reader.octet_within(start, LO, HI)
    }

    fn width(value: u8) -> Option<usize> {
        (LO..=HI).contains(&value).then_some(1)
    }

    fn put(writer: &mut Writer<'_>, value: u8) {
        writer.put_octet(value);
    }
}

// A value that has a code of one octet.
pub struct Code<const ID: u8, C>(PhantomData<C>);

impl<const ID: u8, C> Identified for Code<ID, C> {
    const ID: u8 = ID;

    ghost ID = { ID };
}

impl<'a, const ID: u8, C: Coded + Copy> Element<'a> for Code<ID, C> {
    type Value = C;

    ghost Meaning = { C };

    ghost meant = { λ v. v };

    ghost body = { coded_body C.Coded.encode C.Coded.decode };

    fn read(reader: &mut Reader<'a>, start: usize) -> Result<C, ElementFault> {
        reader.coded(start)
    }

    fn width(_value: C) -> Option<usize> {
        Some(1)
    }

    fn put(writer: &mut Writer<'_>, value: C) {
        writer.put_octet(value.into());
    }
}

// The identifier of an Emergency Indicator.
pub const EMERGENCY_INDICATOR: u8 = 0x0f;

pub type OldSerialNumber = Number<0x02, 0, 65535>;

pub type NewSerialNumber = Number<0x03, 0, 65535>;

pub type Category = Code<0x05, category::Category>;

pub type RepetitionPeriod = Number<0x06, 1, 4095>;

pub type BroadcastsRequested = Number<0x07, 0, 65535>;

pub type Cause = Code<0x0b, cause::Cause>;

pub type DataCodingScheme = Octet<0x0c, 0, 255>;

pub type RecoveryIndication = Code<0x0d, Recovery>;

pub type MessageIdentifier = Number<0x0e, 0, 65535>;

pub type ChannelIndicator = Code<0x12, channel::Channel>;

pub type NumberOfPages = Octet<0x13, 1, 15>;

pub type BroadcastMessageType = Code<0x16, BroadcastType>;

pub type KeepAlivePeriod = Octet<0x18, 1, 38>;

// A Channel Indicator that must be there: an Emergency Indicator in its place is not recognised.
pub struct MustChannel;

impl<'a> Elements<'a> for MustChannel {
    type Value = channel::Channel;

    ghost Meaning = { OneChannel };

    ghost meant = { λ c. c };

    ghost codec = { channel_codec };

    fn read(reader: &mut Reader<'a>) -> Result<channel::Channel, Fault> {
        if reader.octets.get(reader.at) == Some(&EMERGENCY_INDICATOR) {
            return Err(Fault::from(ElementFault::Unknown(reader.at)));
        }
        Must::<ChannelIndicator>::read(reader)
    }

    fn width(value: channel::Channel) -> Option<usize> {
        Must::<ChannelIndicator>::width(value)
    }

    fn put(writer: &mut Writer<'_>, value: channel::Channel) {
        Must::<ChannelIndicator>::put(writer, value);
    }
}
