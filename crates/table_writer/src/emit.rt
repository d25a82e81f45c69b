// The second pass: the octets of records that were judged, where they all have space, so that nothing is refused here. The place goes
// in and comes out, as a writer's does: a container's length is known behind its records, and goes to a place before them. `end`,
// `levels` and `named` are no struct, as in the first pass.
ghost use Rattle.std.specs.Prelude.{◌≡◌, true, ◌+◌, ◌≤◌, length, None};
ghost use Rattle.types.specs.Octets.{number_width, octets};
ghost use Rattle.types.specs.Strings.{octets_of};
ghost use Rattle.tables.specs.Letters.{errata};
ghost use Rattle.tables.specs.Writing.{name_octets, judge_name, judge_payload, judge_records};
ghost use Rattle.tables.specs.AnswerOf.{answer_of_kind, payload_words};
ghost use Rattle.table_writer.specs.Sizes.{Reads, records_from, records_octets, first_octets, judge_first};
ghost use Rattle.table_writer.specs.Emitting.{Emitted, Ready, leaf_payload};

use crate::Source;
use tables::tape::record_at;
use tables::{Kind, PayloadWords, TapeRecord};
use types::{Number, Span};
use writers::{write_number, write_octets};

// The low octets of a number.
pub(crate) fn emit_number(out: &mut [u8], at: usize, width: Number, n: u64) -> usize
    requires { at + number_width width ≤ length out.old }
    ensures { Emitted (octets (number_width width) n) at out.old out.new result }
{
    write_number(out, at, width, n).unwrap()
}

// Octets of the pool.
fn emit_span(out: &mut [u8], at: usize, pool: &[u8], v: Span) -> usize
    requires { (v.start + v.len ≤ length pool.now) × (at + v.len ≤ length out.old) }
    ensures { Emitted (octets_of pool.now v) at out.old out.new result }
{
    let octets = v.octets_in(pool).unwrap();
    write_octets(out, at, octets).unwrap()
}

// The name of a table's entry; values of an array have none.
fn emit_name(out: &mut [u8], at: usize, pool: &[u8], name: Span, named: bool) -> usize
    requires { (judge_name named pool.now 0 name ≡ None) × (at + length (name_octets named (octets_of pool.now name)) ≤ length out.old) }
    ensures { Emitted (name_octets named (octets_of pool.now name)) at out.old out.new result }
{
    if !named {
        return at;
    }
    let next = emit_number(out, at, Number::U8, name.len as u64);
    emit_span(out, next, pool, name)
}

// The payload of a leaf.
fn emit_leaf(out: &mut [u8], at: usize, pool: &[u8], kind: Kind, x: PayloadWords) -> usize
    requires { (judge_payload (answer_of_kind kind) pool.now 0 (payload_words x) ≡ None) × (length (leaf_payload (answer_of_kind kind) pool.now (payload_words x)) ≤ 4294967295 + 4) × (at + length (leaf_payload (answer_of_kind kind) pool.now (payload_words x)) ≤ length out.old) }
    ensures { Emitted (leaf_payload (answer_of_kind kind) pool.now (payload_words x)) at out.old out.new result }
{
    match kind {
        Kind::Number(width) => emit_number(out, at, width, x.first),
        Kind::Boolean => emit_number(out, at, Number::U8, x.first),
        Kind::Decimal => {
            let next = emit_number(out, at, Number::U8, x.first);
            emit_number(out, next, Number::U32, x.second)
        }
        Kind::LongStr => {
            let next = emit_number(out, at, Number::U32, x.second);
            emit_span(out, next, pool, x.to_span())
        }
        _ => at,
    }
}

// Record i, which is r, and those beneath it, which end before record `end`.
#[cycle(emit_records_emit_value)]
fn emit_value(
    source: Source<'_>,
    i: usize,
    r: TapeRecord,
    end: usize,
    levels: usize,
    named: bool,
    out: &mut [u8],
    at: usize,
) -> usize
    requires { (i + 1 ≤ end) × Reads source.tape.now i r × Ready (judge_first errata named source.pool.now levels i (records_from source.tape.now i end)) (first_octets errata named source.pool.now (records_from source.tape.now i end)) at out.old end source.tape.now }
    ensures { Emitted (first_octets errata named source.entry.pool.now (records_from source.entry.tape.now i end)) at out.old out.new result }
{
    let here = emit_name(out, at, source.pool, r.name, named);
    let payload = emit_number(out, here, Number::U8, r.letter);
    let kind = r.kind().unwrap();
    let Kind::Container(inner) = kind else {
        return emit_leaf(out, payload, source.pool, kind, r.payload);
    };
    let first = i + 1;
    let last = first + r.beneath;
    let start = payload + 4;
    let next = emit_records(source, first, last, levels - 1, inner, out, start);
    emit_number(out, payload, Number::U32, (next - start) as u64);
    next
}

// The records from `first` on, up to record `end`.
#[cycle(emit_records_emit_value)]
pub(crate) fn emit_records(
    source: Source<'_>,
    first: usize,
    end: usize,
    levels: usize,
    named: bool,
    out: &mut [u8],
    at: usize,
) -> usize
    requires { (first ≤ end) × Ready (judge_records errata levels named source.pool.now first (records_from source.tape.now first end)) (records_octets errata named source.pool.now (records_from source.tape.now first end)) at out.old end source.tape.now }
    ensures { Emitted (records_octets errata named source.entry.pool.now (records_from source.entry.tape.now first end)) at out.old out.new result }
{
    let mut here = at;
    let mut i = first;
    // No iterator of records: their numbers are told too, in refusals and in clauses.
    while i < end {
        let r = record_at(source.tape, i).unwrap();
        here = emit_value(source, i, r, end, levels, named, out, here);
        i = i + 1 + r.beneath;
    }
    here
}
