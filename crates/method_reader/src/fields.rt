// The loop that reads every command and every content header: a layout says which fields follow, and the arguments are stored as
// words in wire order. Of a table only the records are counted here.
ghost use Rattle.std.specs.Prelude.{◌≡◌, ◌≤◌, length, None};
ghost use Rattle.tables.specs.Letters.{errata};
ghost use Rattle.method.specs.Fields.{arg, number, short_str, bits, login, table, fixed};
ghost use Rattle.method.specs.Present.{present_fields};
ghost use Rattle.method.specs.Words.{width, widths};
ghost use Rattle.method.specs.Layout.{field_of, fixed_octets, places};
ghost use Rattle.method.specs.Kinds.Bits.{flags_in};
ghost use Rattle.types.specs.Octets.{number_width};
ghost use Rattle.method_reader.specs.Fields.{flags_packed, field_at, WordsStored, FieldStored, scan_at, FieldsStored, table_filled, records_in, without_records};

use crate::login::read_login;
use method::fixed::read_fixed;
use method::layout::{Bits, Field, width_of};
use method::present::PresentFields;
use table_reader::{judge_field_table, read_field_table};
use types::{Cursor, Number, Read, WireError};

// A table that has tape records to be filled: how many, and where it stands.
#[derive(Clone, Copy)]
pub(crate) struct TablePlace {
    pub records: usize,
    pub start: usize,
}

fn store_number(s: &[u8], at: Cursor, width: Number, words: &mut [u64]) -> Read<()>
    requires { 1 ≤ length words.old }
    ensures { WordsStored (field_at errata (arg (number (number_width width))) s.now at.at 0) 0 words.old words.new result }
{
    let (n, next) = at.number(s, width)?;
    words[0] = n;
    Ok(((), next))
}

fn store_short_str(s: &[u8], at: Cursor, words: &mut [u64]) -> Read<()>
    requires { 2 ≤ length words.old }
    ensures { WordsStored (field_at errata (arg short_str) s.now at.at 0) 0 words.old words.new result }
{
    let (v, next) = at.short_str(s)?;
    words[..2].copy_from_slice(&v.to_words());
    Ok(((), next))
}

// The flags in a bit octet, the first one lowest; none where a bit is set that is no argument.
fn flags_in(n: u8, arguments: Bits) -> Option<u8>
    ensures { result ≡ flags_packed (places arguments) (flags_in (places arguments) n) }
{
    match arguments {
        Bits::Lowest => (n < 2).then_some(n),
        Bits::Second => match n {
            0 => Some(0),
            2 => Some(1),
            _ => None,
        },
        Bits::Both => (n < 4).then_some(n),
    }
}

// The flags of a bit octet. A set bit without an argument is NotWritten.
fn store_bits(s: &[u8], at: Cursor, arguments: Bits, words: &mut [u64]) -> Read<()>
    requires { 1 ≤ length words.old }
    ensures { WordsStored (field_at errata (arg (bits (places arguments))) s.now at.at 0) 0 words.old words.new result }
{
    let (n, next) = at.u8(s)?;
    let Some(flags) = flags_in(n, arguments) else {
        return Err(WireError::NotWritten(at.at));
    };
    words[0] = flags as u64;
    Ok(((), next))
}

fn store_login(s: &[u8], at: Cursor, words: &mut [u64]) -> Read<()>
    requires { 4 ≤ length words.old }
    ensures { WordsStored (field_at errata (arg login) s.now at.at 0) 0 words.old words.new result }
{
    let (login, next) = read_login(s, at)?;
    words[..2].copy_from_slice(&login.user.to_words());
    words[2..4].copy_from_slice(&login.password.to_words());
    Ok(((), next))
}

// How many tape records the table has.
fn store_table(s: &[u8], at: Cursor, room: usize, words: &mut [u64]) -> Read<usize>
    requires { 1 ≤ length words.old }
    ensures { FieldStored (field_at errata (arg table) s.now at.at room) 0 words.old words.new result }
{
    let (records, next) = judge_field_table(s, at, room)?;
    words[0] = records as u64;
    Ok((records, next))
}

// What no table answers to a reader of fields.
fn without_records(read: Read<()>) -> Read<usize>
    ensures { result ≡ without_records read }
{
    let (_, next) = read?;
    Ok((0, next))
}

// One field, by its kind, and how many tape records it has, which a table alone does.
fn read_field(field: Field, s: &[u8], at: Cursor, room: usize, words: &mut [u64]) -> Read<usize>
    requires { width (field_of field) ≤ length words.old }
    ensures { FieldStored (field_at errata (field_of field) s.now at.at room) 0 words.old words.new result }
{
    match field {
        Field::Number(width) => without_records(store_number(s, at, width, words)),
        Field::ShortStr => without_records(store_short_str(s, at, words)),
        Field::Bits(arguments) => without_records(store_bits(s, at, arguments, words)),
        Field::Login => without_records(store_login(s, at, words)),
        Field::Table => store_table(s, at, room, words),
        Field::Fixed(_) => without_records(read_fixed(s, at, field)),
    }
}

// The fields that are present. An iterator that tells the place of a field's words too would take the two lines of `j` from each such
// loop, and be longer than they are, since its law is of the widths of all fields before.
pub(crate) fn read_fields(
    fields: PresentFields,
    s: &[u8],
    from: Cursor,
    room: usize,
    words: &mut [u64],
) -> Read<Option<TablePlace>>
    requires { widths (present_fields fields) ≤ length words.old }
    ensures { FieldsStored (scan_at errata (present_fields fields.entry) s.now from.at room None) 0 words.old words.new result }
{
    let mut table = None;
    let mut left = room;
    let mut at = from;
    let mut j = 0;
    for field in fields {
        let (records, next) = read_field(field, s, at, left, &mut words[j..])?;
        if records != 0 {
            table = Some(TablePlace {
                records,
                start: at.at,
            });
            left -= records;
        }
        at = next;
        j += width_of(field);
    }
    Ok((table, at))
}

// Fills the records of a table that was judged, behind the used ones, and tells how many there are.
pub(crate) fn fill_table(
    s: &[u8],
    table: Option<TablePlace>,
    tape: &mut [u64],
    used: usize,
) -> usize
    ensures filled { tape.new ≡ table_filled errata s.now table used tape.old }
    ensures count { result ≡ records_in table }
{
    let Some(place) = table else {
        return 0;
    };
    // The octets at the place were judged, so nothing is refused. For an `unwrap` the loop over fields would have to say so of the place.
    let _ = read_field_table(s, Cursor { at: place.start }, tape, used);
    place.records
}
