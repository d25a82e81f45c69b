// The wire types of AMQP 0-9-1: the refusals, a position in lent octets, and what readers answer. All numbers are big-endian.
#![tactic(auto)]

ghost use Rattle.std.specs.Prelude.{◌≡◌, ◌+◌, length, leb};

mod floats;
mod numbers;
mod refusals;
mod strings;

// The eleven refusals, in the order of document 01's two tables.
#[derive(Clone, Copy, Debug, PartialEq, Eq)]
pub enum WireError {
    Truncated,
    ShortStrTooLong,
    UnsupportedFieldType(u8),
    NotUtf8,
    BadTape(usize),
    UnknownMethod(u16, u16),
    NotWritten(usize),
    TooDeep,
    TooLong,
    TapeFull,
    NoSpace,
}

// A refusal by its number, and as many values as it has; the others are 0. C is answered by these words as they are: Options would be
// made 0 again in both places that answer it.
#[derive(Clone, Copy, Debug, PartialEq, Eq)]
pub struct Numbered {
    pub number: u8,
    pub count: u8,
    pub first: u64,
    pub second: u64,
}

// A position in lent octets, by value: it goes in, and the next one comes out with the answer.
#[derive(Clone, Copy, Debug, PartialEq, Eq)]
pub struct Cursor {
    pub at: usize,
}

// A number by its width.
#[derive(Clone, Copy, Debug, PartialEq, Eq)]
pub enum Number {
    U8,
    U16,
    U32,
    U64,
}

// Where some octets stand.
#[derive(Clone, Copy, Debug, PartialEq, Eq)]
pub struct Span {
    pub start: usize,
    pub len: usize,
}

// Whether a slice has n octets at a place. No sum wraps: the place may be any number.
pub fn has_octets(s: &[u8], at: usize, n: usize) -> bool
    ensures { result ≡ leb (at + n) (length s.now) }
{
    at <= s.len() && n <= s.len() - at
}

// What a reader answers: a value and the position past it, or a refusal.
pub type Read<T> = Result<(T, Cursor), WireError>;

// A float, or the bits of a NaN: the language knows one NaN, so no float keeps a NaN's bits.
#[derive(Clone, Copy)]
pub enum FloatOrNan<F, B> {
    Float(F),
    Nan(B),
}
