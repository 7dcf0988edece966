// Faults, from an entry of a list up to the message. A place is an octet's offset in the message, and is kept on the way.
ghost use Rattle.std.specs.Prelude.{◌≡◌};
ghost use Rattle.elements.specs.Faults.{layer_number, missing as missed, out_of_range, to_message, unrecognised as unrecognised_fault};

use crate::cause::Cause;

// What is wrong with an entry of a list stands here.
#[derive(Clone, Copy, PartialEq, Eq, Debug)]
pub struct EntryFault {
    pub place: usize,
}

// What is wrong with an element, and where.
#[derive(Clone, Copy, PartialEq, Eq, Debug)]
pub enum ElementFault {
    Unknown(usize),
    RunsPast(usize),
    OutOfRange(usize),
}

impl From<EntryFault> for ElementFault {
    ghost from_gives = { λ e r. r ≡ out_of_range e };

    fn from(e: EntryFault) -> ElementFault {
        ElementFault::OutOfRange(e.place)
    }
}

// How deep the reading had come: the type, the order of the elements, a value.
#[derive(Clone, Copy, PartialEq, Eq, Debug)]
pub enum Layer {
    Type = 1,
    Elements = 2,
    Values = 3,
}

impl From<Layer> for u8 {
    ghost from_gives = { λ v r. r ≡ layer_number v };

    fn from(layer: Layer) -> u8 {
        layer as u8
    }
}

// The fault of a message, as the host learns it.
#[derive(Clone, Copy, PartialEq, Eq, Debug)]
pub struct Fault {
    pub cause: Cause,
    pub layer: Layer,
    pub place: usize,
}

impl From<ElementFault> for Fault {
    ghost from_gives = { λ e r. r ≡ to_message e };

    fn from(e: ElementFault) -> Fault {
        match e {
            ElementFault::Unknown(place) => Fault {
                cause: Cause::ParameterNotRecognised,
                layer: Layer::Elements,
                place,
            },
            ElementFault::RunsPast(place) => Fault {
                cause: Cause::ParameterValueInvalid,
                layer: Layer::Elements,
                place,
            },
            ElementFault::OutOfRange(place) => Fault {
                cause: Cause::ParameterValueInvalid,
                layer: Layer::Values,
                place,
            },
        }
    }
}

// A mandatory element is missing there. A struct literal, as for the other faults: it names cause, layer and
// place, which a constructor of three arguments would not.
pub fn missing(place: usize) -> Fault
    ensures { result ≡ missed place }
{
    Fault {
        cause: Cause::MissingMandatoryElement,
        layer: Layer::Elements,
        place,
    }
}

// The type octet is none that is taken.
pub fn unrecognised() -> Fault
    ensures { result ≡ unrecognised_fault }
{
    Fault {
        cause: Cause::UnrecognisedMessage,
        layer: Layer::Type,
        place: 0,
    }
}
