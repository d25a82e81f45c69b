// What a function has answered, and how it is printed: the position behind what was read or written, then values, each behind a space.
// Numbers are hexadecimal without leading zeros, but the number of a refusal is decimal.
ghost use Rattle.print.specs.Printing.{FitsBuffer};

use crate::lent;
use print::Printer;
use std::ops::Range;
use types::{Read, Span, WireError};
use writers::Written;

// What there is to say of numbers or octets: that they are the bits of a NaN, that they are below zero, that they are no UTF-8.
#[derive(Clone, Copy)]
pub enum Remark {
    Nan,
    Negative,
    IllFormed,
}

// Up to three numbers, where octets stand, and a remark. The numbers are no ArrayVec of the kit: that is no Copy, which an answer is.
#[derive(Clone, Copy)]
pub struct Values {
    pub numbers: [Option<u64>; 3],
    pub octets: Option<Span>,
    pub remark: Option<Remark>,
}

pub const NOTHING: Values = Values {
    numbers: [None, None, None],
    octets: None,
    remark: None,
};

impl Values {
    pub fn number(n: u64) -> Values {
        Values {
            numbers: [Some(n), None, None],
            ..NOTHING
        }
    }

    pub fn numbers(first: u64, second: u64) -> Values {
        Values {
            numbers: [Some(first), Some(second), None],
            ..NOTHING
        }
    }

    pub fn octets(octets: Span) -> Values {
        Values {
            octets: Some(octets),
            ..NOTHING
        }
    }

    // A number in two's complement, by its bits.
    pub fn signed(bits: u64, is_negative: bool) -> Values {
        Values {
            remark: is_negative.then_some(Remark::Negative),
            ..Values::number(bits)
        }
    }

    pub fn nan(bits: u64) -> Values {
        Values {
            remark: Some(Remark::Nan),
            ..Values::number(bits)
        }
    }
}

// What was read or written up to a position.
#[derive(Clone, Copy)]
pub struct Answer {
    pub next: usize,
    pub values: Values,
}

// Why there is no answer: a refusal, or that the line is no case.
#[derive(Clone, Copy)]
pub enum NoAnswer {
    Refused(WireError),
    NoCase,
}

pub type Told = Result<Answer, NoAnswer>;

pub fn told(next: usize, values: Values) -> Told {
    Ok(Answer { next, values })
}

impl From<WireError> for NoAnswer {
    fn from(e: WireError) -> NoAnswer {
        NoAnswer::Refused(e)
    }
}

// What a reader has answered, by what its value says.
pub(crate) fn of_read<T, F: FnOnce(T) -> Values>(r: Read<T>, values: F) -> Told
    requires { F.IsAlwaysCallable values }
{
    let (value, next) = r?;
    told(next.at, values(value))
}

pub fn of_written(w: Written) -> Told {
    told(w?, NOTHING)
}

// A number behind `separator`.
pub fn and_number(printer: &mut Printer, separator: u8, n: u64)
    ensures { FitsBuffer printer.new }
{
    printer.put(separator);
    printer.hex(n);
}

// Numbers joined by `:`, behind `separator`.
pub fn and_joined(printer: &mut Printer, separator: u8, numbers: &[u64])
    ensures { FitsBuffer printer.new }
{
    for (i, n) in numbers.iter().enumerate() {
        and_number(printer, if i == 0 { separator } else { b':' }, *n);
    }
}

// The octets of a span, behind `separator`: two digits each, `-` for none. A span that reaches outside `s`, as no reader answers it,
// shows as `?`.
pub fn and_span(printer: &mut Printer, separator: u8, s: &[u8], v: Span)
    ensures { FitsBuffer printer.new }
{
    printer.put(separator);
    match v.octets_in(s) {
        None => printer.put(b'?'),
        Some([]) => printer.put(b'-'),
        Some(octets) => printer.octets(octets),
    }
}

// Those that there are of some numbers, each behind `separator`.
fn and_numbers(printer: &mut Printer, separator: u8, numbers: [Option<u64>; 3]) {
    for number in numbers {
        if let Some(n) = number {
            and_number(printer, separator, n);
        }
    }
}

// The number of a refusal and its values, each behind `separator`.
pub fn refusal(printer: &mut Printer, separator: u8, e: WireError) {
    let r = e.numbered();
    write!(printer, "{}", r.number);
    for value in [r.first, r.second].iter().take(r.count as usize) {
        and_number(printer, separator, *value);
    }
}

// Values of `s`, those that there are.
pub fn and_values(printer: &mut Printer, v: Values, s: &[u8]) {
    and_numbers(printer, b' ', v.numbers);
    if let Some(octets) = v.octets {
        and_span(printer, b' ', s, octets);
    }
    match v.remark {
        None => {}
        Some(Remark::Nan) => printer.text(b" nan"),
        Some(Remark::Negative) => printer.text(b" negative"),
        Some(Remark::IllFormed) => printer.text(b" ill-formed"),
    }
}

// What a function has read of `s`.
pub fn shown(printer: &mut Printer, told: Told, s: &[u8]) {
    match told {
        Err(NoAnswer::NoCase) => printer.put(b'?'),
        Err(NoAnswer::Refused(e)) => {
            printer.text(b"! ");
            refusal(printer, b' ', e);
        }
        Ok(answer) => {
            printer.put(b'=');
            and_number(printer, b' ', answer.next as u64);
            and_values(printer, answer.values, s);
        }
    }
}

// Whether lent octets are as `fill` left them, but for those of a range. Each side is asked for by itself: what `kept` compares goes by
// places from the front, and a chain of the two sides has none.
fn kept_but(lent: &[u8], changed: &Range<usize>) -> bool {
    changed.start <= changed.end
        && changed.end <= lent.len()
        && lent::kept(&lent[..changed.start], 0)
        && lent::kept(lent, changed.end)
}

// What a writer has written from `from` on, if it has changed nothing else; nothing at all, if it has refused.
pub fn written(printer: &mut Printer, told: Told, from: usize, lent: &[u8]) {
    let part = told.map_or(0..0, |answer| from..answer.next);
    if !kept_but(lent, &part) {
        return printer.text(b"# changed");
    }
    let octets = Values::octets(Span {
        start: part.start,
        len: part.len(),
    });
    let with_octets = told.map(|answer| Answer {
        next: answer.next,
        values: octets,
    });
    shown(printer, with_octets, lent);
}
