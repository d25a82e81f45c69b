// The value of a record, as its declared type holds it.
use cases::answer::{NOTHING, Values, and_values};
use print::Printer;
use std::num::{f32_to_bits_with_nan, f64_to_bits_with_nan};
use tables::TapeRecord;
use tables::tape::record_at;
use values::FieldValue;

// The letter of a leaf, and its numbers by their bits or its string.
#[derive(Clone, Copy)]
pub struct Leaf {
    pub letter: u8,
    pub values: Values,
}

// By the cases of the value and not by its words, which have the same bits: whether it is a NaN or below zero, and where a string stands,
// is what the declared type says.
fn values_of(v: FieldValue) -> Values {
    match v {
        FieldValue::Bool(b) => Values::number(b as u64),
        FieldValue::I8(z) => Values::signed(z.cast_unsigned() as u64, z < 0),
        FieldValue::U8(n) => Values::number(n as u64),
        FieldValue::I16(z) => Values::signed(z.cast_unsigned() as u64, z < 0),
        FieldValue::U16(n) => Values::number(n as u64),
        FieldValue::I32(z) => Values::signed(z.cast_unsigned() as u64, z < 0),
        FieldValue::U32(n) => Values::number(n as u64),
        FieldValue::I64(z) => Values::signed(z.cast_unsigned(), z < 0),
        FieldValue::F32(x) => Values::number(f32_to_bits_with_nan(x) as u64),
        FieldValue::F32Nan(n) => Values::nan(n as u64),
        FieldValue::F64(x) => Values::number(f64_to_bits_with_nan(x)),
        FieldValue::F64Nan(n) => Values::nan(n),
        FieldValue::Decimal { scale, value } => {
            Values::numbers(scale as u64, value.cast_unsigned() as u64)
        }
        FieldValue::LongStr(v) => Values::octets(v),
        FieldValue::Bytes(v) => Values::octets(v),
        FieldValue::Timestamp(n) => Values::number(n),
        FieldValue::Void => NOTHING,
    }
}

// None for a table, an array, and words that stand for no value.
pub fn leaf_of(r: TapeRecord) -> Option<Leaf> {
    let v = r.value()?;
    Some(Leaf {
        letter: v.words().letter,
        values: values_of(v),
    })
}

// 2026-11-16 00:00:00 UTC and the second after it, of which a float of 32 bits may be both at once.
const MIDNIGHT: u64 = 1_794_787_200;

// Those of the two that a float is, in place of its bits.
fn seconds_of(r: TapeRecord) -> Option<Leaf> {
    let FieldValue::F32(x) = r.value()? else {
        return None;
    };
    let first = if x == 1794787200.0 { MIDNIGHT } else { 0 };
    let second = if x == 1794787201.0 { MIDNIGHT + 1 } else { 0 };
    Some(Leaf {
        letter: b'f',
        values: Values::numbers(first, second),
    })
}

// The value of record 0.
pub fn told(tape: &[u64]) -> Option<Leaf> {
    leaf_of(record_at(tape, 0).ok()?)
}

// The seconds that it is.
pub fn told_in_seconds(tape: &[u64]) -> Option<Leaf> {
    seconds_of(record_at(tape, 0).ok()?)
}

// `=`, the letter, and what the value is.
pub fn show(printer: &mut Printer, leaf: Option<Leaf>, s: &[u8]) {
    match leaf {
        None => printer.put(b'?'),
        Some(leaf) => {
            printer.text(b"= ");
            printer.put(leaf.letter);
            and_values(printer, leaf.values, s);
        }
    }
}
