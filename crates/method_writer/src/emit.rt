// The second pass: the octets of fields that were judged, where they all have space, so that nothing is refused here.
ghost use Rattle.std.specs.Prelude.{◌≡◌, [], ◌++◌, ◌+◌, ◌≤◌, length};
ghost use Rattle.types.specs.Octets.{octets};
ghost use Rattle.types.specs.Strings as span;
ghost use Rattle.types.specs.Memory.{splice};
ghost use Rattle.tables.specs.Letters.{errata};
ghost use Rattle.method.specs.Fields.{arg, short_str, login};
ghost use Rattle.method.specs.Words.{width, widths};
ghost use Rattle.method.specs.Layout.{field_of, places};
ghost use Rattle.method.specs.Present.{present_fields};
ghost use Rattle.method.specs.Kinds.Bits.{octet_of, flags_from};
ghost use Rattle.table_writer.specs.Emitting.{Emitted};
ghost use Rattle.method_writer.specs.Sizes.{field_size, fields_size, octets_of, octets_of_all};
ghost use Rattle.method_writer.specs.Emitting.{Ready};

use crate::spans::span_of;
use method::fixed::write_fixed;
use method::layout::{Bits, Field, width_of};
use method::present::PresentFields;
use table_writer::write_field_table;
use types::Span;
use writers::{write_number, write_octets, write_u8, write_u32};

// Each takes the output and a place, and answers the place behind, as the writers of numbers and octets do. Those may refuse, which cannot
// happen here and is unwrapped: one that refuses nothing would ask its callers for space, and since no public function asks anything, each
// crate would need its own.

// An octet, then octets of the pool. With the span's octets_in, unwrapped, a command took 593 instructions to write in place of 583.
fn emit_octet_and_text(out: &mut [u8], at: usize, octet: u8, text: Span, pool: &[u8]) -> usize
    requires { (text.start + text.len ≤ length pool.now) × (at + 1 + text.len ≤ length out.old) }
    ensures { Emitted (octets 1 octet ++ span.octets_of pool.now text) at out.old out.new result }
{
    let next = write_u8(out, at, octet).unwrap();
    write_octets(out, next, &pool[text.start..text.start + text.len]).unwrap()
}

fn emit_short_str(out: &mut [u8], at: usize, words: &[u64], pool: &[u8]) -> usize
    requires { (2 ≤ length words.now) × Ready (field_size errata pool.now [] (arg short_str) words.now) at out.old }
    ensures { Emitted (octets_of errata pool.now [] (arg short_str) words.now) at out.old out.new result }
{
    let text = span_of(words);
    emit_octet_and_text(out, at, text.len as u8, text, pool)
}

// Flags in the places of the arguments.
fn emit_bits(out: &mut [u8], at: usize, bits: Bits, flags: u64) -> usize
    requires { at + 1 ≤ length out.old }
    ensures { Emitted (octets 1 (octet_of (places bits) (flags_from (places bits) flags))) at out.old out.new result }
{
    let octet = match bits {
        Bits::Lowest => flags % 2,
        Bits::Second => flags % 2 * 2,
        Bits::Both => flags % 4,
    };
    write_u8(out, at, octet as u8).unwrap()
}

// The length of the login string, then NUL, user, NUL, password.
fn emit_login(out: &mut [u8], at: usize, words: &[u64], pool: &[u8]) -> usize
    requires { (4 ≤ length words.now) × Ready (field_size errata pool.now [] (arg login) words.now) at out.old }
    ensures { Emitted (octets_of errata pool.now [] (arg login) words.now) at out.old out.new result }
{
    let user = span_of(words);
    let password = span_of(&words[2..]);
    let len = user.len + password.len + 2;
    let text = write_u32(out, at, len as u32).unwrap();
    let next = emit_octet_and_text(out, text, 0, user, pool);
    emit_octet_and_text(out, next, 0, password, pool)
}

// One field, by its kind, whose words are the first.
#[tactic(auto, unfolding(crate::specs::Sizes::field_size, crate::specs::Sizes::octets_of))]
fn emit_field(
    out: &mut [u8],
    at: usize,
    field: Field,
    words: &[u64],
    pool: &[u8],
    tape: &[u64],
) -> usize
    requires { (width (field_of field) ≤ length words.now) × Ready (field_size errata pool.now tape.now (field_of field) words.now) at out.old }
    ensures { Emitted (octets_of errata pool.now tape.now (field_of field) words.now) at out.old out.new result }
{
    match field {
        Field::Number(number) => write_number(out, at, number, words[0]).unwrap(),
        Field::ShortStr => emit_short_str(out, at, words, pool),
        Field::Bits(bits) => emit_bits(out, at, bits, words[0]),
        Field::Login => emit_login(out, at, words, pool),
        Field::Table => write_field_table(out, at, pool, tape).unwrap(),
        Field::Fixed(_) => write_fixed(out, at, field).unwrap(),
    }
}

// The fields that are present, from their words. What is left of these is cut here: an iterator that gave a field with its words would
// save a line of it, and need a law of the widths of all fields before.
pub(crate) fn emit_fields(
    out: &mut [u8],
    from: usize,
    fields: PresentFields,
    words: &[u64],
    pool: &[u8],
    tape: &[u64],
)
    requires { (widths (present_fields fields) ≤ length words.now) × Ready (fields_size errata pool.now tape.now (present_fields fields) words.now) from out.old }
    ensures { out.new ≡ splice from (octets_of_all errata pool.now tape.now (present_fields fields.entry) words.now) out.old }
{
    let mut at = from;
    let mut rest = words;
    for field in fields {
        at = emit_field(out, at, field, rest, pool, tape);
        rest = &rest[width_of(field)..];
    }
}
