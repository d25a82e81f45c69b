// The content header reader: class, weight, body size, flags, and by these the properties. Weight, flags 2 to 0 and what follows are
// ignored.
ghost use Rattle.std.specs.Prelude.{◌≡◌, ◌%◌, ◌≤◌, ◌<◌};
ghost use Rattle.types.specs.Memory.{outcome};
ghost use Rattle.tables.specs.Letters.{errata};
ghost use Rattle.method.specs.Reading.{read_header};
ghost use Rattle.method_words.specs.Words.{header_words};
ghost use Rattle.method_words.specs.InWords.{words_outcome, in_words};
ghost use Rattle.method_reader.specs.Fields.{read_properties, read_sized};
ghost use Rattle.method_reader.specs.OnePass.{ReadOnce};
ghost use Rattle.method_reader.specs.AnswerOf.{answer_of_header, answer_of_header_words};

use crate::HeaderRead;
use crate::fields::{fill_table, read_fields};
use crate::head::Head;
use method::ContentHeader;
use method::present::{FIRST_FLAG, properties_present};
use method_words::headers::header_of;
use table_reader::{read_field_table_to, room};
use tables::WithCount;
use types::{Cursor, Read};

// The flag of the headers among the thirteen. No other property is a table.
const HEADERS: u16 = 0x0400;

// The lowest flag of those before it.
const BEFORE_HEADERS: u16 = 0x0800;

// Properties with headers among them, whose table ends where its length says. The table is passed over by its length and the properties
// behind it are judged first, since a refusal there must leave the tape as it was; then the table is read, and so judged only once.
// None where that was not enough to judge them, and then nothing is changed.
fn read_once(
    head: Head,
    s: &[u8],
    at: Cursor,
    tape: &mut [u64],
    used: usize,
    words: &mut [u64; 22],
) -> Option<(HeaderRead, Cursor)>
    requires { 1024 ≤ head.present % 2048 }
    ensures { ReadOnce errata head s.now at.at used tape.old words.old tape.new words.new result }
{
    let mut properties = [0u64; 22];
    let before = properties_present(head.present / BEFORE_HEADERS * BEFORE_HEADERS);
    let (_, start) = read_fields(before, s, at, 0, &mut properties).ok()?;
    let (_, end) = start.long_str(s).ok()?;
    // Before the word of the headers stand two for each string that is present.
    let own = ((head.present / FIRST_FLAG + head.present / BEFORE_HEADERS % 2) * 2) as usize;
    let behind = properties_present(head.present % HEADERS);
    let (_, next) = read_fields(behind, s, end, 0, &mut properties[own + 1..]).ok()?;
    let (records, after) = read_field_table_to(s, start, end.at, tape, used).ok()?;
    if after.at != end.at {
        return None;
    }
    properties[own] = records as u64;
    *words = properties;
    Some((head.with_records(records), next))
}

// The properties in two passes: all are judged, then a table is read.
fn read_judged(
    head: Head,
    s: &[u8],
    at: Cursor,
    tape: &mut [u64],
    used: usize,
    words: &mut [u64; 22],
) -> Read<HeaderRead>
    ensures { words_outcome (answer_of_header_words result words.new) words.new tape.new ≡ in_words header_words (λ x. x.words) words.old (read_properties errata head.class head.body_size head.present s.now at.at used tape.old) }
{
    let mut properties = [0u64; 22];
    let fields = properties_present(head.present);
    let (table, next) = read_fields(fields, s, at, room(tape, used), &mut properties)?;
    let records = fill_table(s, table, tape, used);
    *words = properties;
    Ok((head.with_records(records), next))
}

fn read_properties(
    head: Head,
    s: &[u8],
    at: Cursor,
    tape: &mut [u64],
    used: usize,
    words: &mut [u64; 22],
) -> Read<HeaderRead>
    ensures { words_outcome (answer_of_header_words result words.new) words.new tape.new ≡ in_words header_words (λ x. x.words) words.old (read_properties errata head.class head.body_size head.present s.now at.at used tape.old) }
{
    if HEADERS <= head.present % BEFORE_HEADERS {
        if let Some(read) = read_once(head, s, at, tape, used, words) {
            return Ok(read);
        }
    }
    read_judged(head, s, at, tape, used, words)
}

// Behind class and weight.
fn read_sized(
    class: u16,
    s: &[u8],
    at: Cursor,
    tape: &mut [u64],
    used: usize,
    words: &mut [u64; 22],
) -> Read<HeaderRead>
    ensures { words_outcome (answer_of_header_words result words.new) words.new tape.new ≡ in_words header_words (λ x. x.words) words.old (read_sized errata class s.now at.at used tape.old) }
{
    let (body_size, after) = at.u64(s)?;
    let (flags, next) = after.u16(s)?;
    let head = Head {
        class,
        body_size,
        present: flags / 8,
    };
    read_properties(head, s, next, tape, used, words)
}

// Reads a content header in words, and fills the records behind the used ones with its headers.
pub fn read_header_words(
    s: &[u8],
    at: Cursor,
    tape: &mut [u64],
    used: usize,
    words: &mut [u64; 22],
) -> Read<HeaderRead>
    ensures { words_outcome (answer_of_header_words result words.new) words.new tape.new ≡ in_words header_words (λ x. x.words) words.old (read_header errata s.now at.at used tape.old) }
{
    let (class, after) = at.u16(s)?;
    let (_weight, next) = after.u16(s)?;
    read_sized(class, s, next, tape, used, words)
}

// Reads a content header, and fills the records behind the used ones with its headers.
pub fn read_content_header(
    s: &[u8],
    at: Cursor,
    tape: &mut [u64],
    used: usize,
) -> Read<WithCount<ContentHeader>>
    ensures { outcome (answer_of_header result) tape.new ≡ read_header errata s.now at.at used tape.old }
{
    let mut words = [0u64; 22];
    let (header, next) = read_header_words(s, at, tape, used, &mut words)?;
    let value = header_of(header.class, header.body_size, header.present, words);
    Ok((
        WithCount {
            value,
            count: header.records,
        },
        next,
    ))
}
