// The words of a payload as text: a command's class, method and arguments; a content header's class and body size, then each present
// property behind its flag; a body's start and length.
use crate::fields::Words;
use cases::answer::{and_number, and_span};
use frame::FrameType;
use method::layout::{Bits, Field, layout_of, property_fields, width_of};
use method_words::cut::low_u16;
use print::Printer;
use table_cases::record::Records;
use types::Span;

// A string is two words: where it starts, and how long it is.
fn and_string(printer: &mut Printer, separator: u8, start: u64, len: u64, s: &[u8]) {
    and_span(printer, separator, s, Span::from_words([start, len]));
}

// The arguments of a field, each behind `separator`; they are the first of the words.
fn and_field(printer: &mut Printer, separator: u8, field: Field, words: &[u64], s: &[u8]) {
    match (field, words) {
        (Field::Number(_) | Field::Table, [n, ..]) => and_number(printer, separator, *n),
        (Field::ShortStr, [start, len, ..]) => and_string(printer, separator, *start, *len, s),
        (Field::Bits(Bits::Both), [bits, ..]) => {
            and_number(printer, separator, *bits % 2);
            and_number(printer, separator, *bits / 2 % 2);
        }
        (Field::Bits(_), [bits, ..]) => and_number(printer, separator, *bits % 2),
        (Field::Login, [start, len, second_start, second_len, ..]) => {
            and_string(printer, separator, *start, *len, s);
            and_string(printer, separator, *second_start, *second_len, s);
        }
        _ => {}
    }
}

// The words behind those of a field.
fn behind(field: Field, words: &[u64]) -> &[u64] {
    words.get(width_of(field)..).unwrap_or(&[])
}

// Words one and two: class and method, class and body size, or start and length of a body.
fn and_two(printer: &mut Printer, words: &Words) {
    and_number(printer, b' ', words[1]);
    and_number(printer, b' ', words[2]);
}

// The arguments of a layout, behind class and method. An iterator that gave a field with its words would save a line of this loop alone.
fn and_fields(printer: &mut Printer, layout: &[Field], words: &Words, s: &[u8]) {
    let mut rest = &words[3..];
    for field in layout {
        and_field(printer, b' ', *field, rest, s);
        rest = behind(*field, rest);
    }
}

// ` FLAG=VALUE` of each property that is present, by the flags 15 down to 3, of which the words have 13 bits; a table is its number of
// records and these. Not by `properties_present`, which gives the fields without the flags that are shown.
fn and_properties(printer: &mut Printer, words: &Words, records: Records) {
    let mut rest = &words[4..];
    for (i, field) in property_fields().iter().enumerate().take(13) {
        if (words[3] >> (12 - i)) % 2 == 0 {
            continue;
        }
        let flag = 15 - i;
        write!(printer, " {flag}");
        and_field(printer, b'=', *field, rest, records.s);
        if let (Field::Table, [count, ..]) = (*field, rest) {
            records.show(printer, *count as usize);
        }
        rest = behind(*field, rest);
    }
}

fn and_command(printer: &mut Printer, words: &Words, s: &[u8]) {
    let class = low_u16(words[1]);
    let method = low_u16(words[2]);
    and_two(printer, words);
    if let Some(layout) = layout_of(class, method) {
        and_fields(printer, layout, words, s);
    }
}

pub(crate) fn and_payload(
    printer: &mut Printer,
    frame_type: FrameType,
    words: &Words,
    records: Records,
) {
    match frame_type {
        FrameType::Method => and_command(printer, words, records.s),
        FrameType::Header => {
            and_two(printer, words);
            and_properties(printer, words, records);
        }
        FrameType::Body => and_two(printer, words),
        FrameType::Heartbeat => {}
    }
}
