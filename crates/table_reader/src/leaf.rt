// A leaf: in the first pass where its payload ends, in the second its two words on the tape. A table or an array is no leaf.
ghost use Rattle.std.specs.Prelude.{◌≡◌};
ghost use Rattle.types.specs.AnswerOf.{answer_of, answer_with};
ghost use Rattle.tables.specs.AnswerOf.{answer_of_kind, payload_words};
ghost use Rattle.table_reader.specs.Counting.{counting, one_record};
ghost use Rattle.table_reader.specs.Filling.{payload_of};

use tables::{Kind, PayloadWords};
use types::{Cursor, Read, Span, WireError};

// Where the octets of a string stand, or all octets of another payload.
fn leaf_span(s: &[u8], at: Cursor, kind: Kind) -> Read<Span>
    ensures { counting (λ _. 1) (answer_of result) ≡ counting (λ _. 1) (payload_of (answer_of_kind kind) s.now at.at) }
{
    match kind {
        Kind::Number(width) => at.span(s, width.octets()),
        Kind::Void => at.span(s, 0),
        Kind::Boolean => at.span(s, 1),
        Kind::Decimal => at.span(s, 5),
        Kind::LongStr => at.long_str(s),
        Kind::Container(_) => Err(WireError::Truncated),
    }
}

// One record, where there is room for it.
#[tactic(auto, using(crate::proofs::CountingLaws::room_some), unfolding(crate::specs::Counting::counting))]
pub(crate) fn judge_leaf(s: &[u8], at: Cursor, kind: Kind, room: usize) -> Read<usize>
    ensures { answer_of result ≡ one_record room (payload_of (answer_of_kind kind) s.now at.at) }
{
    if room == 0 {
        return Err(WireError::TapeFull);
    }
    let (_, next) = leaf_span(s, at, kind)?;
    Ok((1, next))
}

#[tactic(auto, using(crate::proofs::LeafLaws::void_leaf), unfolding(tables::specs::Reading::leaf_at))]
pub(crate) fn leaf_at(s: &[u8], at: Cursor, kind: Kind) -> Read<PayloadWords>
    ensures { answer_with payload_words result ≡ payload_of (answer_of_kind kind) s.now at.at }
{
    match kind {
        Kind::Number(width) => {
            let (n, next) = at.number(s, width)?;
            Ok((PayloadWords::number(n), next))
        }
        Kind::Boolean => {
            let (n, next) = at.u8(s)?;
            Ok((PayloadWords::number(n.min(1) as u64), next))
        }
        Kind::Decimal => {
            let (scale, after) = at.u8(s)?;
            let (n, next) = after.u32(s)?;
            let payload = PayloadWords {
                first: scale as u64,
                second: n as u64,
            };
            Ok((payload, next))
        }
        Kind::LongStr => {
            let (v, next) = at.long_str(s)?;
            Ok((PayloadWords::from_span(v), next))
        }
        Kind::Void => {
            let (_, next) = at.span(s, 0)?;
            Ok((PayloadWords::number(0), next))
        }
        Kind::Container(_) => Err(WireError::Truncated),
    }
}
