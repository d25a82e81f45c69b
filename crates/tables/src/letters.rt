// The letters of values: the RabbitMQ errata.
ghost use Rattle.std.specs.Prelude.{◌≡◌};
ghost use Rattle.tables.specs.Letters.{errata, kind_of};
ghost use Rattle.tables.specs.AnswerOf.{kind_or_unknown};

use crate::Kind;
use types::Number;

// Named as in the grammar, of which it is the one equation. No TryFrom, which would need an error of its own: those who ask refuse an
// unknown letter each in its way, the reader with the letter and the writer with the number of the record.
#[inline(always)]
#[tactic(auto, using(crate::proofs::LetterLaws::no_letter), unfolding(crate::specs::Letters::kind_of))]
pub fn kind_of(letter: u8) -> Option<Kind>
    ensures { kind_or_unknown result ≡ kind_of errata letter }
{
    let kind = match letter {
        b't' => Kind::Boolean,
        b'b' | b'B' => Kind::Number(Number::U8),
        b's' | b'u' => Kind::Number(Number::U16),
        b'I' | b'i' | b'f' => Kind::Number(Number::U32),
        b'l' | b'd' | b'T' => Kind::Number(Number::U64),
        b'D' => Kind::Decimal,
        b'S' | b'x' => Kind::LongStr,
        b'V' => Kind::Void,
        b'F' => Kind::Container(true),
        b'A' => Kind::Container(false),
        _ => return None,
    };
    Some(kind)
}
