// Field tables, from their records on a tape: {"name": letter value, ..}; arrays in square brackets, without names.
ghost use Rattle.print.specs.Printing.{FitsBuffer};
ghost use Rattle.std.specs.Iterator.{at_most};
ghost use Rattle.std.specs.Prelude.{length};

use crate::number::{HALF8, HALF16, HALF32, HALF64, scaled, signed};
use crate::{float, moment, string};
use print::Printer;
use tables::tape::{RECORD_WORDS, record_at};
use tables::{Kind, LEVELS, TapeRecord};
use values::FieldValue;

fn leaf(printer: &mut Printer, s: &[u8], v: FieldValue) {
    match v {
        FieldValue::Bool(b) => write!(printer, "{b}"),
        FieldValue::I8(z) => signed(printer, z.cast_unsigned() as u64, HALF8),
        FieldValue::U8(n) => write!(printer, "{n}"),
        FieldValue::I16(z) => signed(printer, z.cast_unsigned() as u64, HALF16),
        FieldValue::U16(n) => write!(printer, "{n}"),
        FieldValue::I32(z) => signed(printer, z.cast_unsigned() as u64, HALF32),
        FieldValue::U32(n) => write!(printer, "{n}"),
        FieldValue::I64(z) => signed(printer, z.cast_unsigned(), HALF64),
        FieldValue::F32(x) => float::float32(printer, x),
        FieldValue::F32Nan(bits) => float::nan(printer, bits as u64),
        FieldValue::F64(x) => float::float64(printer, x),
        FieldValue::F64Nan(bits) => float::nan(printer, bits),
        FieldValue::Decimal { scale, value } => scaled(printer, scale, value),
        FieldValue::LongStr(v) => string::quoted_span(printer, s, v),
        FieldValue::Bytes(v) => string::octets_span(printer, s, v),
        FieldValue::Timestamp(n) => moment::timestamp(printer, n),
        FieldValue::Void => printer.text(b"void"),
    }
}

// The name, if an entry has one, and the letter.
fn label(printer: &mut Printer, s: &[u8], r: TapeRecord, named: bool) {
    if named {
        string::quoted_span(printer, s, r.name);
        printer.text(b": ");
    }
    printer.text(&[(r.letter % 256) as u8, b' ']);
}

// The records of one table or array, those beneath each left out: the words of those that are still to come.
#[derive(Clone, Copy)]
struct Siblings<'a> {
    words: &'a [u64],
}

// A record, and the records right beneath it.
#[derive(Clone, Copy)]
struct Entry<'a> {
    record: TapeRecord,
    beneath: Siblings<'a>,
}

impl<'a> Iterator for Siblings<'a> {
    // None in place of a record that does not stand there whole: it is the last one.
    type Item = Option<Entry<'a>>;

    ghost remaining = { λ s. at_most (length s.words.now) };

    fn next(&mut self) -> Option<Option<Entry<'a>>> {
        let words = self.words;
        self.words = &[];
        if words.is_empty() {
            return None;
        }
        let (Ok(record), Some(others)) = (record_at(words, 0), words.get(RECORD_WORDS..)) else {
            return Some(None);
        };
        let beneath = record.beneath.saturating_mul(RECORD_WORDS);
        let Some((words, behind)) = others.split_at_checked(beneath) else {
            return Some(None);
        };
        self.words = behind;
        let beneath = Siblings { words };
        Some(Some(Entry { record, beneath }))
    }
}

#[cycle(container_entries_value_of)]
fn entries(printer: &mut Printer, s: &[u8], records: Siblings, levels: usize, named: bool) {
    for (i, entry) in records.enumerate() {
        let Some(entry) = entry else {
            return printer.put(b'?');
        };
        if i != 0 {
            printer.text(b", ");
        }
        label(printer, s, entry.record, named);
        value_of(printer, s, entry, levels);
    }
}

// A leaf, or what lies beneath a table or an array.
#[cycle(container_entries_value_of)]
fn value_of(printer: &mut Printer, s: &[u8], entry: Entry, levels: usize) {
    match entry.record.value() {
        Some(v) => leaf(printer, s, v),
        None if levels == 0 => printer.put(b'?'),
        None => {
            let is_table = entry.record.kind() == Some(Kind::Container(true));
            container(printer, s, entry.beneath, levels - 1, is_table)
        }
    }
}

#[cycle(container_entries_value_of)]
fn container(printer: &mut Printer, s: &[u8], records: Siblings, levels: usize, is_table: bool) {
    printer.put(if is_table { b'{' } else { b'[' });
    entries(printer, s, records, levels, is_table);
    printer.put(if is_table { b'}' } else { b']' });
}

// A table whose records are the first `count` of a tape; beneath it stand as many levels as a reader lets through, and one more. More
// records than the tape has, as no reader answers them, show as `?`. The count stands beside the tape, since it is what readers answer.
pub fn table(printer: &mut Printer, s: &[u8], tape: &[u64], count: usize)
    ensures { FitsBuffer printer.new }
{
    match tape.get(..count.saturating_mul(RECORD_WORDS)) {
        None => printer.put(b'?'),
        Some(words) => container(printer, s, Siblings { words }, LEVELS + 1, true),
    }
}
