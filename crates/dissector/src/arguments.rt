// The arguments of commands and the properties of content headers.
use print::Printer;
use text::{moment, string, table};
use types::Span;

#[derive(Clone, Copy)]
pub(crate) enum Argument {
    Number(u64),
    Bit(bool),
    Text(Span),
    Moment(u64),
    // So many records of the tape.
    Table(usize),
}

// At most three, those that there are first. An ArrayVec of the kit would be one library more, for lists that nothing is ever added to.
pub(crate) type Arguments = [Option<Argument>; 3];

impl From<u8> for Argument {
    fn from(n: u8) -> Argument {
        Argument::Number(n as u64)
    }
}

impl From<u16> for Argument {
    fn from(n: u16) -> Argument {
        Argument::Number(n as u64)
    }
}

impl From<u32> for Argument {
    fn from(n: u32) -> Argument {
        Argument::Number(n as u64)
    }
}

impl From<u64> for Argument {
    fn from(n: u64) -> Argument {
        Argument::Number(n)
    }
}

impl From<bool> for Argument {
    fn from(b: bool) -> Argument {
        Argument::Bit(b)
    }
}

impl From<Span> for Argument {
    fn from(v: Span) -> Argument {
        Argument::Text(v)
    }
}

pub(crate) fn one<A: Into<Argument>>(a: A) -> Arguments {
    [Some(a.into()), None, None]
}

pub(crate) fn two<A: Into<Argument>, B: Into<Argument>>(a: A, b: B) -> Arguments {
    [Some(a.into()), Some(b.into()), None]
}

pub(crate) fn three<A: Into<Argument>, B: Into<Argument>, C: Into<Argument>>(
    a: A,
    b: B,
    c: C,
) -> Arguments {
    [Some(a.into()), Some(b.into()), Some(c.into())]
}

impl Argument {
    // Strings are spans of `s`, and the records of a table are the first of the tape.
    pub(crate) fn show(self, printer: &mut Printer, s: &[u8], tape: &[u64]) {
        match self {
            Argument::Number(n) => write!(printer, "{n}"),
            Argument::Bit(b) => write!(printer, "{b}"),
            Argument::Text(v) => string::quoted_span(printer, s, v),
            Argument::Moment(seconds) => moment::timestamp(printer, seconds),
            Argument::Table(count) => table::table(printer, s, tape, count),
        }
    }
}
