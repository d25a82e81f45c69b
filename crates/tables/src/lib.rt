// Field tables on the wire and on the tape. Reading and writing them stand in crates of their own, over what is here.
#![tactic(auto)]

ghost use Rattle.std.specs.Prelude.{◌≡◌};
ghost use Rattle.tables.specs.Forest.{words};
ghost use Rattle.tables.specs.AnswerOf.{payload_words};

pub mod letters;
pub mod tape;

use types::{Number, Span};

// No table or array may stand at depth 16; the values of the outermost table, and a lone value, stand at depth 1.
pub const LEVELS: usize = 15;

// The name of a value that has none: in an array, or alone.
pub const NO_NAME: Span = Span { start: 0, len: 0 };

// What follows a letter: a number; nothing; a truth value; a scale octet and a number of 32 bits; a long string;
// the values of a table, which have names, or of an array. A container keeps this bit, which the grammar and all below a container ask
// for: two kinds would be told apart again at each of those places.
#[derive(Clone, Copy, Debug, PartialEq, Eq)]
pub enum Kind {
    Number(Number),
    Void,
    Boolean,
    Decimal,
    LongStr,
    Container(bool),
}

// The two words of a payload: a number and 0, the start and length of a string, or the scale and number of a decimal.
#[derive(Clone, Copy, Debug, PartialEq, Eq)]
pub struct PayloadWords {
    pub first: u64,
    pub second: u64,
}

impl PayloadWords {
    pub fn number(first: u64) -> PayloadWords
        ensures { payload_words result ≡ words first 0 }
    {
        PayloadWords { first, second: 0 }
    }

    // No From, here and back: the words are a span in a string alone, so the name at each call says which payload is meant.
    pub fn from_span(v: Span) -> PayloadWords
        ensures { payload_words result ≡ words v.start v.len }
    {
        let [first, second] = v.to_words();
        PayloadWords { first, second }
    }

    pub fn to_span(self) -> Span
        ensures { result ≡ record { start = self.first; len = self.second } }
    {
        Span::from_words([self.first, self.second])
    }
}

// A record of the tape.
#[derive(Clone, Copy)]
pub struct TapeRecord {
    pub letter: u64,
    pub name: Span,
    pub payload: PayloadWords,
    // the number of records beneath
    pub beneath: usize,
}

// What was read, and how many records of the tape were filled for it.
#[derive(Clone, Copy)]
pub struct WithCount<T> {
    pub value: T,
    pub count: usize,
}
