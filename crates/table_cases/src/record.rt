// A record of the tape in an answer.
ghost use Rattle.print.specs.Printing.{FitsBuffer};

use crate::lending::USED;
use crate::value::leaf_of;
use cases::answer::{NOTHING, Values, and_joined, and_number, and_span};
use print::Printer;
use tables::tape::{RECORD_WORDS, record_at};
use tables::{Kind, TapeRecord};

// What has no leaf value: a table or an array. Another letter shows as `?`.
fn container(r: TapeRecord) -> u8 {
    match r.kind() {
        Some(Kind::Container(true)) => b'F',
        Some(Kind::Container(false)) => b'A',
        _ => b'?',
    }
}

// :VALUE, which is `-` where there is none.
fn and_value(printer: &mut Printer, v: Values, s: &[u8]) {
    if let Some(octets) = v.octets {
        return and_span(printer, b':', s, octets);
    }
    let [first, second, _] = v.numbers;
    match first {
        None => printer.text(b":-"),
        Some(n) => and_number(printer, b':', n),
    }
    if let Some(n) = second {
        and_number(printer, b',', n);
    }
}

// LETTER:NAME:VALUE:BENEATH.
fn shown(printer: &mut Printer, r: TapeRecord, s: &[u8]) {
    let leaf = leaf_of(r);
    printer.put(leaf.map_or(container(r), |leaf| leaf.letter));
    and_span(printer, b':', s, r.name);
    and_value(printer, leaf.map_or(NOTHING, |leaf| leaf.values), s);
    and_number(printer, b':', r.beneath as u64);
}

// Record number k by its contents, behind a space.
fn contents(printer: &mut Printer, s: &[u8], tape: &[u64], k: usize) {
    printer.put(b' ');
    match record_at(tape, k) {
        Err(_) => printer.put(b'?'),
        Ok(r) => shown(printer, r, s),
    }
}

// A record by its words, behind ` #`.
pub fn and_words(printer: &mut Printer, record: &[u64])
    ensures { FitsBuffer printer.new }
{
    printer.put(b' ');
    and_joined(printer, b'#', record);
}

// Record number k by its words.
fn words(printer: &mut Printer, tape: &[u64], k: usize) {
    let start = k.saturating_mul(RECORD_WORDS);
    match tape.get(start..start.saturating_add(RECORD_WORDS)) {
        None => printer.text(b" ?"),
        Some(record) => and_words(printer, record),
    }
}

// The records of a tape that was lent for `s`, shown by their words or by their contents.
#[derive(Clone, Copy)]
pub struct Records<'a> {
    pub s: &'a [u8],
    pub tape: &'a [u64],
    pub by_words: bool,
}

impl<'a> Records<'a> {
    // So many of them, behind the used ones.
    pub fn show(self, printer: &mut Printer, count: usize) {
        for k in USED..USED.saturating_add(count) {
            if self.by_words {
                words(printer, self.tape, k);
            } else {
                contents(printer, self.s, self.tape, k);
            }
        }
    }
}
