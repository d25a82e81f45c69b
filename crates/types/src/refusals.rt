// The refusals by document 01's number, with their values: for callers that cannot take the enum, and for logs.
ghost use Rattle.std.specs.Prelude.{◌≡◌};
ghost use Rattle.types.specs.declared.WireError.TheVariants.{NotUtf8};
ghost use Rattle.types.specs.AnswerOf.{refusal, numbered};

use crate::{Numbered, WireError};
use utf8::Utf8Error;

fn with_values(number: u8, count: u8, first: u64, second: u64) -> Numbered
    ensures { result ≡ record { number = number; count = count; first = first; second = second } }
{
    Numbered {
        number,
        count,
        first,
        second,
    }
}

impl WireError {
    // Numbers and words, since C takes no enum.
    pub fn numbered(self) -> Numbered
        ensures { result ≡ numbered (refusal self) }
    {
        match self {
            WireError::Truncated => with_values(1, 0, 0, 0),
            WireError::ShortStrTooLong => with_values(2, 0, 0, 0),
            WireError::UnsupportedFieldType(octet) => with_values(3, 1, octet as u64, 0),
            WireError::NotUtf8 => with_values(4, 0, 0, 0),
            WireError::BadTape(record) => with_values(5, 1, record as u64, 0),
            WireError::UnknownMethod(class, method) => {
                with_values(6, 2, class as u64, method as u64)
            }
            WireError::NotWritten(place) => with_values(7, 1, place as u64, 0),
            WireError::TooDeep => with_values(8, 0, 0, 0),
            WireError::TooLong => with_values(9, 0, 0, 0),
            WireError::TapeFull => with_values(10, 0, 0, 0),
            WireError::NoSpace => with_values(11, 0, 0, 0),
        }
    }
}

// Octets that are no UTF-8 are one refusal, wherever the fault is.
impl From<Utf8Error> for WireError {
    ghost from_gives = { λ _ e. e ≡ NotUtf8 };

    fn from(_e: Utf8Error) -> WireError {
        WireError::NotUtf8
    }
}
