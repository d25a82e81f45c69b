// The first pass: how many records a table or a value takes and where it ends, or why it is refused. It writes nothing.
// `levels` and `named` are no struct: values take `levels` alone, and `named` is asked for by entries alone.
ghost use Rattle.std.specs.Prelude.{◌≡◌, ◌+◌, ◌≤◌, length};
ghost use Rattle.types.specs.AnswerOf.{answer_of};
ghost use Rattle.tables.specs.Letters.{errata};
ghost use Rattle.tables.specs.Forest.{size};
ghost use Rattle.tables.specs.Reading.{name_at, entries_at, value_at};
ghost use Rattle.table_reader.specs.Counting.{counting, size_of};

use crate::leaf::judge_leaf;
use tables::letters::kind_of;
use tables::{Kind, NO_NAME};
use types::{Cursor, Read, Span, WireError};

// The name of a table's entry; values of an array have none.
#[tactic(auto, unfolding(tables::specs::Reading::name_at))]
fn judge_name(s: &[u8], at: Cursor, named: bool) -> Read<Span>
    ensures { answer_of result ≡ name_at named s.now at.at }
{
    if named {
        at.short_str(s)
    } else {
        Ok((NO_NAME, at))
    }
}

// A value that may have so many levels of tables and arrays, itself one of them, with room for so many records.
#[cycle(judge_entries_judge_value)]
fn judge_value(s: &[u8], at: Cursor, levels: usize, room: usize) -> Read<usize>
    ensures { answer_of result ≡ counting size_of (value_at errata levels s.now at.at room) }
{
    let (letter, next) = at.u8(s)?;
    let Some(kind) = kind_of(letter) else {
        return Err(WireError::UnsupportedFieldType(letter));
    };
    let Kind::Container(named) = kind else {
        return judge_leaf(s, next, kind, room);
    };
    if levels == 0 {
        return Err(WireError::TooDeep);
    }
    if room == 0 {
        return Err(WireError::TapeFull);
    }
    let (body, _) = next.long_str(s)?;
    let (count, end) = judge_entries(s, body, levels - 1, room - 1, named)?;
    Ok((count + 1, end))
}

// Entries until the position has reached the body's end, which the last one may run past.
#[cycle(judge_entries_judge_value)]
pub(crate) fn judge_entries(
    s: &[u8],
    body: Span,
    levels: usize,
    room: usize,
    named: bool,
) -> Read<usize>
    requires { body.start + body.len ≤ length s.now }
    ensures { answer_of result ≡ counting size (entries_at (value_at errata levels) named s.now body.start (body.start + body.len) room) }
{
    let end = body.start + body.len;
    let mut here = Cursor { at: body.start };
    let mut count: usize = 0;
    // No iterator: what is read tells how far it moves, and each step may refuse.
    while here.at < end {
        let (_, next) = judge_name(s, here, named)?;
        let (k, after) = judge_value(s, next, levels, room - count)?;
        count += k;
        here = after;
    }
    Ok((count, here))
}
