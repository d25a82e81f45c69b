// The readers of one field: numbers by their bits, a signed one in two's complement; strings; what is passed over; the UTF-8 check.
use crate::answer::{NOTHING, Remark, Told, Values, of_read, told};
use crate::operation::{Number, Reader};
use std::num::{f32_to_bits_with_nan, f64_to_bits_with_nan};
use types::{Cursor, FloatOrNan, Read, Span};
use utf8::Utf8Error;

// A number without a sign, of any width.
pub(crate) fn of_uint<T: Into<u64>>(r: Read<T>) -> Told {
    of_read(r, |n| Values::number(n.into()))
}

// A float of either width, whose bits a function makes.
fn of_float<F, B: Into<u64>, M: Fn(F) -> B>(r: Read<FloatOrNan<F, B>>, bits_of: M) -> Told
    requires { M.IsAlwaysCallable bits_of }
{
    of_read(r, |x| match x {
        FloatOrNan::Float(x) => Values::number(bits_of(x).into()),
        FloatOrNan::Nan(bits) => Values::nan(bits.into()),
    })
}

pub(crate) fn of_span(r: Read<Span>) -> Told {
    of_read(r, Values::octets)
}

// The place of the first character that is ill-formed, or behind the last.
fn of_scan(r: Result<(), Utf8Error>, len: usize) -> Told {
    match r {
        Ok(()) => told(len, NOTHING),
        Err(e) => told(
            e.valid_up_to,
            Values {
                remark: Some(Remark::IllFormed),
                ..NOTHING
            },
        ),
    }
}

fn read_number(number: Number, s: &[u8], start: Cursor) -> Told {
    match number {
        Number::U8 => of_uint(start.u8(s)),
        Number::U16 => of_uint(start.u16(s)),
        Number::U32 => of_uint(start.u32(s)),
        Number::U64 => of_uint(start.u64(s)),
        Number::I8 => of_read(
            start.i8(s),
            |z| Values::signed(z.cast_unsigned() as u64, z < 0),
        ),
        Number::I16 => of_read(
            start.i16(s),
            |z| Values::signed(z.cast_unsigned() as u64, z < 0),
        ),
        Number::I32 => of_read(
            start.i32(s),
            |z| Values::signed(z.cast_unsigned() as u64, z < 0),
        ),
        Number::I64 => of_read(start.i64(s), |z| Values::signed(z.cast_unsigned(), z < 0)),
    }
}

pub fn read(reader: Reader, s: &[u8], at: usize) -> Told {
    let start = Cursor { at };
    match reader {
        Reader::Number(number) => read_number(number, s, start),
        Reader::F32 => of_float(start.f32(s), |x| f32_to_bits_with_nan(x)),
        Reader::F64 => of_float(start.f64(s), |x| f64_to_bits_with_nan(x)),
        Reader::ShortStr => of_span(start.short_str(s)),
        Reader::LongStr => of_span(start.long_str(s)),
        Reader::SkipFieldTable => of_read(start.skip_field_table(s), |()| NOTHING),
        Reader::ScanUtf8 => of_scan(utf8::scan_utf8(s), s.len()),
    }
}
