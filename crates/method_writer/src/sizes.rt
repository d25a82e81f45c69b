// The first pass: every argument judged in wire order, and how many octets the fields take. It writes nothing.
ghost use Rattle.std.specs.Prelude.{◌≡◌, [], ◌+◌, ◌^◌, ◌≤◌, ◌<◌, length, None};
ghost use Rattle.types.specs.Strings.{octets_of, judge_short_str, judge_length};
ghost use Rattle.types.specs.AnswerOf.{or_refusal};
ghost use Rattle.tables.specs.Letters.{errata};
ghost use Rattle.table_writer.specs.Sizes.{sized};
ghost use Rattle.method.specs.Fields.{arg, login};
ghost use Rattle.method.specs.Pooled.{refusal_of};
ghost use Rattle.method.specs.Words.{width, widths, args_from};
ghost use Rattle.method.specs.Layout.{field_of};
ghost use Rattle.method.specs.Present.{present_fields};
ghost use Rattle.method.specs.Kinds.ShortStr.{judge_span};
ghost use Rattle.method.specs.Kinds.Login.{judge_text};
ghost use Rattle.method_writer.specs.Sizes as size;
ghost use Rattle.method_writer.specs.Sizes.{both, count, field_size, octets_of_all};
ghost use Rattle.method_writer.specs.AnswerOf.{size_of, answer_of_size};

use crate::spans::span_of;
use method::fixed::fixed_len;
use method::layout::{Field, width_of};
use method::present::PresentFields;
use table_writer::judge_field_table;
use types::{Span, WireError};
use writers::{MAX_LENGTH, judge_short_str};

// How many octets there are to write, or None where a length is too great to be written. That is told only when all fields were judged.
type Size = Option<usize>;

// The size of two pieces.
fn sum(size: Size, more: Size) -> Size
    requires { count (size_of size) + count (size_of more) < 2 ^ 64 }
    ensures { size_of result ≡ both (size_of size) (size_of more) }
{
    Some(size? + more?)
}

// Octets behind their length, which has four octets.
fn counted(len: usize) -> Size
    ensures { size_of result ≡ size.sized None (judge_length len) (4 + len) }
{
    if MAX_LENGTH < len {
        return None;
    }
    Some(4 + len)
}

// Octets of a pool: the span, then UTF-8. A span outside the pool has fewer octets than it needs.
fn size_text(text: Span, pool: &[u8]) -> Result<usize, WireError>
    ensures { or_refusal (λ n. n) result ≡ sized (judge_text pool.now text None) text.len }
{
    let Some(octets) = text.octets_in(pool) else {
        return Err(WireError::Truncated);
    };
    utf8::scan_utf8(octets)?;
    Ok(text.len)
}

// The span, then the length, then UTF-8.
fn size_short_str(text: Span, pool: &[u8]) -> Result<usize, WireError>
    ensures { or_refusal (λ n. n) result ≡ sized (judge_span pool.now text (judge_short_str (octets_of pool.now text))) (1 + text.len) }
{
    let Some(octets) = text.octets_in(pool) else {
        return Err(WireError::Truncated);
    };
    judge_short_str(octets)?;
    Ok(1 + text.len)
}

// The octets of a login string, which has two NULs.
fn login_size(user: usize, password: usize) -> Size
    ensures { size_of result ≡ size.sized None (judge_length (user + password + 2)) (4 + (user + password + 2)) }
{
    counted(user.checked_add(password)?.checked_add(2)?)
}

// The user wholly before the password, then the length of both.
fn size_login(words: &[u64], pool: &[u8]) -> Result<Size, WireError>
    requires { 4 ≤ length words.now }
    ensures { answer_of_size result ≡ field_size errata pool.now [] (arg login) words.now }
{
    let user = size_text(span_of(words), pool)?;
    let password = size_text(span_of(&words[2..]), pool)?;
    Ok(login_size(user, password))
}

// One field, by its kind, whose words are the first.
#[tactic(auto, unfolding(crate::specs::Sizes::field_size))]
fn size_field(field: Field, words: &[u64], pool: &[u8], tape: &[u64]) -> Result<Size, WireError>
    requires { width (field_of field) ≤ length words.now }
    ensures { answer_of_size result ≡ field_size errata pool.now tape.now (field_of field) words.now }
{
    match field {
        Field::Number(number) => Ok(Some(number.octets())),
        Field::ShortStr => {
            let len = size_short_str(span_of(words), pool)?;
            Ok(Some(len))
        }
        Field::Bits(_) => Ok(Some(1)),
        Field::Login => size_login(words, pool),
        Field::Table => {
            let len = judge_field_table(pool, tape)?;
            Ok(counted(len))
        }
        Field::Fixed(_) => Ok(Some(fixed_len(field))),
    }
}

// The fields that are present, from their words, which are cut as in emit.rt. A length that is too great is refused behind all else.
pub(crate) fn size_fields(
    fields: PresentFields,
    words: &[u64],
    pool: &[u8],
    tape: &[u64],
) -> Result<usize, WireError>
    requires { widths (present_fields fields) ≤ length words.now }
    ensures { or_refusal (λ n. n) result ≡ sized (refusal_of errata pool.now tape.now (present_fields fields.entry) (args_from (present_fields fields.entry) words.now)) (length (octets_of_all errata pool.now tape.now (present_fields fields.entry) words.now)) }
{
    let mut size = Some(0);
    let mut rest = words;
    for field in fields {
        let more = size_field(field, rest, pool, tape)?;
        size = sum(size, more);
        rest = &rest[width_of(field)..];
    }
    size.ok_or(WireError::TooLong)
}
