// The writers of one field: numbers, each given at its own width; eight flags in an octet; strings and octets.
use crate::answer::{NoAnswer, Told, of_written};
use crate::operation::{Number, Writer};
use writers::Written;

// A field that has as many octets as are wanted.
fn exactly<const N: usize>(s: &[u8]) -> Result<[u8; N], NoAnswer> {
    <[u8; N]>::try_from(s).map_err(|_| NoAnswer::NoCase)
}

fn write_number(number: Number, s: &[u8], lent: &mut [u8], at: usize) -> Result<Written, NoAnswer> {
    Ok(match number {
        Number::U8 => writers::write_u8(lent, at, u8::from_be_bytes(exactly(s)?)),
        Number::U16 => writers::write_u16(lent, at, u16::from_be_bytes(exactly(s)?)),
        Number::U32 => writers::write_u32(lent, at, u32::from_be_bytes(exactly(s)?)),
        Number::U64 => writers::write_u64(lent, at, u64::from_be_bytes(exactly(s)?)),
        Number::I8 => writers::write_i8(lent, at, i8::from_be_bytes(exactly(s)?)),
        Number::I16 => writers::write_i16(lent, at, i16::from_be_bytes(exactly(s)?)),
        Number::I32 => writers::write_i32(lent, at, i32::from_be_bytes(exactly(s)?)),
        Number::I64 => writers::write_i64(lent, at, i64::from_be_bytes(exactly(s)?)),
    })
}

// Eight flags, an octet 00 or 01 each: written as one octet.
fn packed(s: &[u8], lent: &mut [u8], at: usize) -> Told {
    let octets: [u8; 8] = exactly(s)?;
    if octets.iter().any(|b| *b > 1) {
        return Err(NoAnswer::NoCase);
    }
    let flags = octets.map(|b| b == 1);
    of_written(writers::write_u8(lent, at, bits::pack_bits(flags)))
}

pub fn write(writer: Writer, s: &[u8], lent: &mut [u8], at: usize) -> Told {
    match writer {
        Writer::Number(number) => of_written(write_number(number, s, lent, at)?),
        Writer::PackBits => packed(s, lent, at),
        Writer::ShortStr => of_written(writers::write_short_str(lent, at, s)),
        Writer::LongStr => of_written(writers::write_long_str(lent, at, s)),
        Writer::Octets => of_written(writers::write_octets(lent, at, s)),
    }
}
