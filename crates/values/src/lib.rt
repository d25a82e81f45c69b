// Leaf values of field tables and their words on the tape: document 01, "types.rs: tables and the tape".
#![tactic(auto)]

ghost use Rattle.std.specs.Prelude.{◌≡◌, ◌<◌, Result, None};
ghost use Rattle.std.specs.Result.{result_ok};
ghost use Rattle.values.specs.Values.{leaf, words_of, value_of, within, unused, decimal_of, f32_value, f64_value};

use std::num::{TryFromIntError, f32_to_bits_with_nan, f64_to_bits_with_nan};
use types::{FloatOrNan, Span};

// A leaf value of a field table: everything but a table and an array. A NaN has a case of its own, with its bits.
#[derive(Clone, Copy)]
pub enum FieldValue {
    Bool(bool),
    I8(i8),
    U8(u8),
    I16(i16),
    U16(u16),
    I32(i32),
    U32(u32),
    I64(i64),
    F32(f32),
    F32Nan(u32),
    F64(f64),
    F64Nan(u64),
    Decimal { scale: u8, value: i32 },
    LongStr(Span),
    Bytes(Span),
    Timestamp(u64),
    Void,
}

// What the tape has for a leaf value: its letter and its two payload words. These stand as two numbers, here and in the functions below:
// PayloadWords is of tables, which builds on this crate, and its constructors have no use here.
#[derive(Clone, Copy, Debug, PartialEq, Eq)]
pub struct LeafWords {
    pub letter: u8,
    pub first: u64,
    pub second: u64,
}

fn leaf_words(letter: u8, first: u64, second: u64) -> LeafWords
    ensures { result ≡ leaf letter first second }
{
    LeafWords {
        letter,
        first,
        second,
    }
}

// The words of a string: where it stands.
fn string_words(letter: u8, v: Span) -> LeafWords
    ensures { result ≡ leaf letter v.start v.len }
{
    let [start, len] = v.to_words();
    leaf_words(letter, start, len)
}

// The value of 32 bits that are a float's, and of 64: one function of both would take the cases as arguments, and say no less. Not by From,
// which would be a public conversion that no other crate has use for.
fn f32_value(n: u32) -> FieldValue
    ensures { result ≡ f32_value n }
{
    match FloatOrNan::<f32, u32>::from_bits(n) {
        FloatOrNan::Float(x) => FieldValue::F32(x),
        FloatOrNan::Nan(bits) => FieldValue::F32Nan(bits),
    }
}

fn f64_value(n: u64) -> FieldValue
    ensures { result ≡ f64_value n }
{
    match FloatOrNan::<f64, u64>::from_bits(n) {
        FloatOrNan::Float(x) => FieldValue::F64(x),
        FloatOrNan::Nan(bits) => FieldValue::F64Nan(bits),
    }
}

// v where the second word is unused.
fn with_unused(second: u64, v: FieldValue) -> Option<FieldValue>
    ensures { result ≡ unused second v }
{
    (second == 0).then_some(v)
}

// v where the first word is below a limit that is no type's and the second is unused.
fn in_range(limit: u64, first: u64, second: u64, v: FieldValue) -> Option<FieldValue>
    ensures { result ≡ within limit first second v }
{
    (first < limit && second == 0).then_some(v)
}

// A scale octet and a signed number of 32 bits.
fn decimal(first: u64, second: u64) -> Option<FieldValue>
    ensures { result ≡ decimal_of first second }
{
    let scale = u8::try_from(first).ok()?;
    let value = u32::try_from(second).ok()?.cast_signed();
    Some(FieldValue::Decimal { scale, value })
}

impl FieldValue {
    // The letter and the words that the tape has for a value. A method, as the way back is, which may find none.
    pub fn words(self) -> LeafWords
        ensures { result ≡ words_of self }
    {
        match self {
            FieldValue::Bool(b) => leaf_words(b't', b as u64, 0),
            FieldValue::I8(z) => leaf_words(b'b', z.cast_unsigned() as u64, 0),
            FieldValue::U8(n) => leaf_words(b'B', n as u64, 0),
            FieldValue::I16(z) => leaf_words(b's', z.cast_unsigned() as u64, 0),
            FieldValue::U16(n) => leaf_words(b'u', n as u64, 0),
            FieldValue::I32(z) => leaf_words(b'I', z.cast_unsigned() as u64, 0),
            FieldValue::U32(n) => leaf_words(b'i', n as u64, 0),
            FieldValue::I64(z) => leaf_words(b'l', z.cast_unsigned(), 0),
            FieldValue::F32(x) => leaf_words(b'f', f32_to_bits_with_nan(x) as u64, 0),
            FieldValue::F32Nan(n) => leaf_words(b'f', n as u64, 0),
            FieldValue::F64(x) => leaf_words(b'd', f64_to_bits_with_nan(x), 0),
            FieldValue::F64Nan(n) => leaf_words(b'd', n, 0),
            FieldValue::Decimal { scale, value } => {
                leaf_words(b'D', scale as u64, value.cast_unsigned() as u64)
            }
            FieldValue::LongStr(v) => string_words(b'S', v),
            FieldValue::Bytes(v) => string_words(b'x', v),
            FieldValue::Timestamp(n) => leaf_words(b'T', n, 0),
            FieldValue::Void => leaf_words(b'V', 0, 0),
        }
    }
}

impl LeafWords {
    // The first word as a number of a type; none where it is outside the type's range or the second word is not 0.
    fn number<T: TryFrom<u64, Error = TryFromIntError>>(self) -> Option<T>
        ensures unused { 0 < self.second → result ≡ None }
        ensures number { self.second ≡ 0 → (r : Result T TryFromIntError) × T.try_from_gives self.first r × (result ≡ result_ok r) }
    {
        if self.second != 0 {
            return None;
        }
        T::try_from(self.first).ok()
    }

    // The value that the words stand for; none where the letter has no leaf value, a number is outside its range or an
    // unused word is not 0.
    pub fn value(self) -> Option<FieldValue>
        ensures { result ≡ value_of self }
    {
        let LeafWords {
            letter,
            first,
            second,
        } = self;
        match letter {
            b't' => in_range(2, first, second, FieldValue::Bool(first == 1)),
            b'b' => self.number::<u8>().map(u8::cast_signed).map(FieldValue::I8),
            b'B' => self.number::<u8>().map(FieldValue::U8),
            b's' => self
                .number::<u16>()
                .map(u16::cast_signed)
                .map(FieldValue::I16),
            b'u' => self.number::<u16>().map(FieldValue::U16),
            b'I' => self
                .number::<u32>()
                .map(u32::cast_signed)
                .map(FieldValue::I32),
            b'i' => self.number::<u32>().map(FieldValue::U32),
            b'l' => with_unused(second, FieldValue::I64(first.cast_signed())),
            b'f' => self.number::<u32>().map(f32_value),
            b'd' => with_unused(second, f64_value(first)),
            b'D' => decimal(first, second),
            b'S' => Some(FieldValue::LongStr(Span::from_words([first, second]))),
            b'x' => Some(FieldValue::Bytes(Span::from_words([first, second]))),
            b'T' => with_unused(second, FieldValue::Timestamp(first)),
            b'V' => in_range(1, first, second, FieldValue::Void),
            _ => None,
        }
    }
}
