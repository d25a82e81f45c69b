// The first pass: every record judged in order, and how many octets the records take, or the first refusal. It writes nothing.
// `end`, `levels` and `named` are no struct: each container makes all three anew, and each is asked for by itself, `end` where records
// are counted, `levels` at a container and `named` at a name.
ghost use Rattle.std.specs.Prelude.{◌≡◌, false, ◌&&◌, ◌+◌, ◌*◌, ◌^◌, ◌≤◌, length, ltb, eqb, None};
ghost use Rattle.types.specs.Answer.{bad_tape};
ghost use Rattle.types.specs.Strings.{octets_of};
ghost use Rattle.types.specs.Octets.{number_width};
ghost use Rattle.types.specs.Judgement.{test};
ghost use Rattle.types.specs.AnswerOf.{or_refusal};
ghost use Rattle.tables.specs.Letters.{errata, kind_of, is_table};
ghost use Rattle.tables.specs.Tape.{tape_records};
ghost use Rattle.tables.specs.Writing.{name_octets, judge_name, judge_payload, count_ok, judge_record, judge_lone_value};
ghost use Rattle.tables.specs.AnswerOf.{payload_words, record_of};
ghost use Rattle.table_writer.specs.Sizes.{capped, sized, kind_or_refusal, own_payload, own_size, Reads, records_from, sized_first, sized_records, judge_tape, tape_size};

use crate::Source;
use tables::tape::{RECORD_WORDS, record_at, records_in};
use tables::{Kind, LEVELS, NO_NAME, PayloadWords, TapeRecord};
use types::{Number, Span, WireError};
use writers::judge_short_str;

// How many octets are to be written, or the first refusal.
pub(crate) type Judged = Result<usize, WireError>;

// Above this all sizes count as this one: it is more than any length that can be written, and sums of it do not wrap, though
// spans may overlap without limit.
const SIZE_CAP: usize = 0x2_0000_0000;

// A name: its span, its length, whether it is UTF-8. Values of an array have none.
fn judge_name(pool: &[u8], i: usize, name: Span, named: bool) -> Judged
    ensures { or_refusal (λ n. n) result ≡ sized (judge_name named pool.now i name) (length (name_octets named (octets_of pool.now name))) }
{
    if !named {
        if name != NO_NAME {
            return Err(WireError::BadTape(i));
        }
        return Ok(0);
    }
    let Some(octets) = name.octets_in(pool) else {
        return Err(WireError::BadTape(i));
    };
    judge_short_str(octets)?;
    Ok(1 + octets.len())
}

// The greatest number of a width.
fn greatest(width: Number) -> u64
    ensures { result + 1 ≡ 256 ^ number_width width }
{
    match width {
        Number::U8 => 0xFF,
        Number::U16 => 0xFFFF,
        Number::U32 => 0xFFFF_FFFF,
        Number::U64 => 0xFFFF_FFFF_FFFF_FFFF,
    }
}

// A first word that is no more than the greatest, and a second one that is not used.
fn judge_number(i: usize, x: PayloadWords, greatest: u64, size: usize) -> Judged
    ensures { or_refusal (λ n. n) result ≡ sized (test (ltb x.first (greatest + 1) && eqb x.second 0) (bad_tape i) None) size }
{
    if greatest < x.first || x.second != 0 {
        return Err(WireError::BadTape(i));
    }
    Ok(size)
}

// The payload words of a record, and how many octets are its own: of a table or an array the four of its length.
fn judge_payload(pool: &[u8], i: usize, r: TapeRecord) -> Judged
    ensures { or_refusal (λ n. n) result ≡ sized (judge_payload (kind_of errata r.letter) pool.now i (payload_words r.payload)) (capped (own_payload (kind_of errata r.letter) r.payload.second)) }
{
    let x = r.payload;
    match r.kind() {
        None => Err(WireError::BadTape(i)),
        Some(Kind::Number(width)) => judge_number(i, x, greatest(width), width.octets()),
        Some(Kind::Void) => judge_number(i, x, 0, 0),
        Some(Kind::Boolean) => judge_number(i, x, 1, 1),
        Some(Kind::Decimal) => {
            if greatest(Number::U8) < x.first || greatest(Number::U32) < x.second {
                return Err(WireError::BadTape(i));
            }
            Ok(5)
        }
        Some(Kind::LongStr) => {
            let Some(octets) = x.to_span().octets_in(pool) else {
                return Err(WireError::BadTape(i));
            };
            Ok(4 + octets.len().min(SIZE_CAP - 4))
        }
        Some(Kind::Container(_)) => judge_number(i, x, 0, 4),
    }
}

// The letter, then for a table or an array the depth.
fn judge_letter(i: usize, r: TapeRecord, levels: usize) -> Result<(), WireError>
    ensures { or_refusal (λ _. kind_of errata r.letter) result ≡ kind_or_refusal (kind_of errata r.letter) levels i }
{
    match r.kind() {
        None => Err(WireError::BadTape(i)),
        Some(Kind::Container(_)) if levels == 0 => Err(WireError::TooDeep),
        Some(_) => Ok(()),
    }
}

// Whether the number of records beneath is right, with so many left before the parent's end.
fn count_fits(r: TapeRecord, left: usize) -> bool
    ensures { result ≡ count_ok (kind_of errata r.letter) r.beneath left }
{
    match r.kind() {
        None => false,
        Some(Kind::Container(_)) => r.beneath <= left,
        Some(_) => r.beneath == 0,
    }
}

// A record by itself, with so many behind it before its parent's end, and how many octets are its own.
fn judge_record(
    pool: &[u8],
    i: usize,
    r: TapeRecord,
    left: usize,
    levels: usize,
    named: bool,
) -> Judged
    ensures { or_refusal (λ n. n) result ≡ sized (judge_record errata levels named pool.now i (record_of r) left) (own_size errata named pool.now (record_of r)) }
{
    judge_letter(i, r, levels)?;
    let name = judge_name(pool, i, r.name, named)?;
    let payload = judge_payload(pool, i, r)?;
    if !count_fits(r, left) {
        return Err(WireError::BadTape(i));
    }
    Ok((name + 1 + payload).min(SIZE_CAP))
}

// Whether the values beneath a record have names.
fn has_names(r: TapeRecord) -> bool
    ensures { result ≡ is_table (kind_of errata r.letter) }
{
    match r.kind() {
        Some(Kind::Container(named)) => named,
        _ => false,
    }
}

// Record i, which is r, and those beneath it, which end before record `end`.
#[cycle(judge_records_judge_value)]
fn judge_value(
    source: Source<'_>,
    i: usize,
    r: TapeRecord,
    end: usize,
    levels: usize,
    named: bool,
) -> Judged
    requires { (i + 1 ≤ end) × (end * tape_records.size ≤ length source.tape.now) × Reads source.tape.now i r }
    ensures { or_refusal (λ n. n) result ≡ sized_first errata named source.entry.pool.now levels i (records_from source.entry.tape.now i end) }
{
    let first = i + 1;
    let own = judge_record(source.pool, i, r, end - first, levels, named)?;
    if r.beneath == 0 {
        return Ok(own);
    }
    let last = first + r.beneath;
    let below = judge_records(source, first, last, levels - 1, has_names(r))?;
    Ok((own + below).min(SIZE_CAP))
}

// The records from `first` on, up to record `end`.
#[cycle(judge_records_judge_value)]
fn judge_records(source: Source<'_>, first: usize, end: usize, levels: usize, named: bool) -> Judged
    requires { (first ≤ end) × (end * tape_records.size ≤ length source.tape.now) }
    ensures { or_refusal (λ n. n) result ≡ sized_records errata named source.entry.pool.now levels first (records_from source.entry.tape.now first end) }
{
    let mut size: usize = 0;
    let mut i = first;
    // No iterator of records: their numbers are told too, in refusals and in clauses.
    while i < end {
        let r = record_at(source.tape, i)?;
        let n = judge_value(source, i, r, end, levels, named)?;
        size = (size + n).min(SIZE_CAP);
        i = i + 1 + r.beneath;
    }
    Ok(size)
}

// All records of a tape, and then whether it has words over that are no record.
pub(crate) fn judge_tape(source: Source<'_>, named: bool) -> Judged
    ensures { or_refusal (λ n. n) result ≡ sized (judge_tape errata named source.entry.pool.now source.entry.tape.now) (tape_size errata named source.entry.pool.now source.entry.tape.now) }
{
    let count = records_in(source.tape);
    let size = judge_records(source, 0, count, LEVELS, named)?;
    if source.tape.len() % RECORD_WORDS != 0 {
        return Err(WireError::BadTape(count));
    }
    Ok(size)
}

// The tape of a lone value, whose first record must count all others. Where it does not, only its own faults come before that.
pub(crate) fn judge_lone_value(source: Source<'_>) -> Judged
    ensures { or_refusal (λ n. n) result ≡ sized (judge_lone_value errata source.entry.pool.now source.entry.tape.now) (tape_size errata false source.entry.pool.now source.entry.tape.now) }
{
    let r = record_at(source.tape, 0)?;
    if r.beneath == records_in(source.tape) - 1 {
        return judge_tape(source, false);
    }
    judge_records(source, 0, 1, LEVELS, false)?;
    Err(WireError::BadTape(0))
}
