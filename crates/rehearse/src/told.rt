// How lines and results are told.
use crate::octets::Spaced;
use crate::script::without_comment;
use cbsp::message_type::MessageType;
use controller::state::message::Answered;
use controller::world::Report;
use elements::faults::Fault;
use std::fmt;

// The first words of a line.
#[derive(Clone, Copy)]
pub struct Said<'a> {
    pub line: &'a str,
    pub words: usize,
}

impl fmt::Display for Said<'_> {
    fn fmt<W: fmt::Write>(&self, f: &mut fmt::Formatter<W>) -> fmt::Result {
        let said = without_comment(self.line);
        for (place, word) in said.split_ascii_whitespace().take(self.words).enumerate() {
            if place > 0 {
                f.write_str(" ")?;
            }
            f.write_str(word)?;
        }
        Ok(())
    }
}

// The fault of a message, behind the octets that answer it.
#[derive(Clone, Copy)]
pub struct Faulty(pub Option<Fault>);

impl fmt::Display for Faulty {
    fn fmt<W: fmt::Write>(&self, f: &mut fmt::Formatter<W>) -> fmt::Result {
        match self.0 {
            Some(fault) => {
                let cause = u8::from(fault.cause);
                let layer = u8::from(fault.layer);
                let place = fault.place;
                write!(f, " fault {cause:02X} layer {layer} place {place}")
            }
            None => Ok(()),
        }
    }
}

// The type of a message, by its first octet.
#[derive(Clone, Copy)]
pub struct TypeOf<'a>(pub &'a [u8]);

impl fmt::Display for TypeOf<'_> {
    fn fmt<W: fmt::Write>(&self, f: &mut fmt::Formatter<W>) -> fmt::Result {
        match self.0.first().map(|code| MessageType::try_from(*code)) {
            Some(Ok(kind)) => write!(f, "{kind}"),
            _ => f.write_str("no message of the standard"),
        }
    }
}

// The link that a call needs.
#[derive(Clone, Copy)]
pub enum LinkKind {
    Any,
    Waiting,
    Open,
}

impl fmt::Display for LinkKind {
    fn fmt<W: fmt::Write>(&self, f: &mut fmt::Formatter<W>) -> fmt::Result {
        f.write_str(match self {
            LinkKind::Any => "link",
            LinkKind::Waiting => "waiting link",
            LinkKind::Open => "open link",
        })
    }
}

// What is sent, or why nothing is: the call is refused, or the host has no link for it as it needs one.
#[derive(Clone, Copy)]
pub struct Outcome<'a> {
    pub report: Report,
    pub sent: &'a [u8],
    pub needed: LinkKind,
}

impl fmt::Display for Outcome<'_> {
    fn fmt<W: fmt::Write>(&self, f: &mut fmt::Formatter<W>) -> fmt::Result {
        match self.report {
            Report::Done(Answered { fault, .. }) => {
                let octets = Spaced(self.sent);
                let fault = Faulty(fault);
                write!(f, "{octets}{fault}")
            }
            Report::Refused(refusal) => write!(f, "refused {}", u8::from(refusal)),
            Report::NoLink => write!(f, "no {}", self.needed),
        }
    }
}
