// Values of elements, as they stand in lines.
// Clone and Copy alone: what is told here is made, printed and never compared.
use cbsp::keep_alive::seconds;
use cbsp::serial::serial_code;
use elements::cause::Cause;
use std::fmt;

#[derive(Clone, Copy)]
pub struct Identifier(pub u16);

impl fmt::Display for Identifier {
    fn fmt<W: fmt::Write>(&self, f: &mut fmt::Formatter<W>) -> fmt::Result {
        write!(f, "{:04x}", self.0)
    }
}

// A serial number with its code, the twelve most significant bits, and its update number, the other four.
#[derive(Clone, Copy)]
pub struct Serial(pub u16);

impl fmt::Display for Serial {
    fn fmt<W: fmt::Write>(&self, f: &mut fmt::Formatter<W>) -> fmt::Result {
        let whole = self.0;
        let code = serial_code(whole);
        let update = whole & 0xf;
        write!(f, "{whole:04x} (code {code:03x}, update number {update})")
    }
}

// A cause with its code before its name.
#[derive(Clone, Copy)]
pub struct NamedCause(pub Cause);

impl fmt::Display for NamedCause {
    fn fmt<W: fmt::Write>(&self, f: &mut fmt::Formatter<W>) -> fmt::Result {
        write!(f, "{:02x} {}", u8::from(self.0), self.0)
    }
}

// A Repetition Period, which counts periods of 1.883 seconds.
#[derive(Clone, Copy)]
pub struct Period(pub u16);

impl fmt::Display for Period {
    fn fmt<W: fmt::Write>(&self, f: &mut fmt::Formatter<W>) -> fmt::Result {
        let milliseconds = u32::from(self.0) * 1883;
        let whole = milliseconds / 1000;
        let rest = milliseconds % 1000;
        write!(f, "{} ({whole}.{rest:03} seconds)", self.0)
    }
}

// A Number of Broadcasts Requested.
#[derive(Clone, Copy)]
pub struct Broadcasts(pub u16);

impl fmt::Display for Broadcasts {
    fn fmt<W: fmt::Write>(&self, f: &mut fmt::Formatter<W>) -> fmt::Result {
        match self.0 {
            0 => f.write_str("0 (until ended)"),
            count => write!(f, "{count}"),
        }
    }
}

// A Keep Alive Repetition Period by its code.
#[derive(Clone, Copy)]
pub struct KeepAlivePeriod(pub u8);

impl fmt::Display for KeepAlivePeriod {
    fn fmt<W: fmt::Write>(&self, f: &mut fmt::Formatter<W>) -> fmt::Result {
        match seconds(self.0) {
            Some(time) => write!(f, "{:02x} ({time} seconds)", self.0),
            None => write!(f, "{:02x} (no time)", self.0),
        }
    }
}
