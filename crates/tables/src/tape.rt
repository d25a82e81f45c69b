// The records of a tape, and the leaf values that they hold, for those who read a tape.
ghost use Rattle.std.specs.Prelude.{◌≡◌};
ghost use Rattle.tables.specs.Tape.{record_at, tape_records};
ghost use Rattle.types.specs.AnswerOf.{or_refusal};
ghost use Rattle.types.specs.Records.{record_count};
ghost use Rattle.tables.specs.Letters.{errata, kind_of};
ghost use Rattle.tables.specs.AnswerOf.{kind_or_unknown, record_of, leaf_value};

use crate::letters::kind_of;
use crate::{Kind, PayloadWords, TapeRecord};
use types::{Span, WireError};
use values::{FieldValue, LeafWords};

// Words in a record.
pub const RECORD_WORDS: usize = 6;

// How many records a tape has. Words over, which are no record, are not counted.
#[inline(always)]
pub fn records_in(tape: &[u64]) -> usize
    ensures { result ≡ record_count tape_records tape.now }
{
    tape.len() / RECORD_WORDS
}

// Record number k. A tape that does not have it is refused with BadTape(k).
pub fn record_at(tape: &[u64], k: usize) -> Result<TapeRecord, WireError>
    ensures { or_refusal record_of result ≡ record_at tape.now k }
{
    let (records, _) = tape.as_chunks::<RECORD_WORDS>();
    let Some(&[letter, start, len, first, second, beneath]) = records.get(k) else {
        return Err(WireError::BadTape(k));
    };
    Ok(TapeRecord {
        letter,
        name: Span::from_words([start, len]),
        payload: PayloadWords { first, second },
        beneath: beneath as usize,
    })
}

impl TapeRecord {
    // None for a letter that is not in the list, and so for one that is no octet.
    #[inline(always)]
    #[tactic(auto, using(crate::proofs::LetterLaws::no_octet))]
    pub fn kind(self) -> Option<Kind>
        ensures { kind_or_unknown result ≡ kind_of errata self.letter }
    {
        kind_of(u8::try_from(self.letter).ok()?)
    }

    // The value of a leaf; none for a table, an array, and words that stand for no value.
    #[tactic(auto, using(crate::proofs::LetterLaws::no_value))]
    pub fn value(self) -> Option<FieldValue>
        ensures { result ≡ leaf_value self }
    {
        let letter = u8::try_from(self.letter).ok()?;
        let PayloadWords { first, second } = self.payload;
        (LeafWords {
            letter,
            first,
            second,
        })
        .value()
    }
}
