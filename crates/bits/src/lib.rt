// Values and their bits: signed numbers in two's complement, floats, and flags in one octet. The laws of signed numbers stand in proofs/, for
// the crates that read and write them.
#![tactic(auto)]

ghost use Rattle.std.specs.Prelude.{◌≡◌};
ghost use Rattle.std.specs.Float.{binary32, binary64};
ghost use Rattle.std.specs.Float.Ieee.{to_bits};
ghost use Rattle.bits.specs.Signed.{twos};
ghost use Rattle.bits.specs.Flags.{pack_bits};

use std::num::{f32_to_bits_with_nan, f64_to_bits_with_nan};

// The number whose two's complement is n.
pub fn signed8(n: u8) -> i8
    ensures { twos 8 result ≡ n }
{
    u8::cast_signed(n)
}

// The number whose two's complement is n.
pub fn signed16(n: u16) -> i16
    ensures { twos 16 result ≡ n }
{
    u16::cast_signed(n)
}

// The number whose two's complement is n.
pub fn signed32(n: u32) -> i32
    ensures { twos 32 result ≡ n }
{
    u32::cast_signed(n)
}

// The number whose two's complement is n.
pub fn signed64(n: u64) -> i64
    ensures { twos 64 result ≡ n }
{
    u64::cast_signed(n)
}

// The two's complement of z.
pub fn unsigned8(z: i8) -> u8
    ensures { result ≡ twos 8 z }
{
    i8::cast_unsigned(z)
}

// The two's complement of z.
pub fn unsigned16(z: i16) -> u16
    ensures { result ≡ twos 16 z }
{
    i16::cast_unsigned(z)
}

// The two's complement of z.
pub fn unsigned32(z: i32) -> u32
    ensures { result ≡ twos 32 z }
{
    i32::cast_unsigned(z)
}

// The two's complement of z.
pub fn unsigned64(z: i64) -> u64
    ensures { result ≡ twos 64 z }
{
    i64::cast_unsigned(z)
}

// The bits of x; of the language's one NaN the quiet pattern without payload.
pub fn f32_bits(x: f32) -> u32
    ensures { result ≡ to_bits binary32 x }
{
    f32_to_bits_with_nan(x)
}

pub fn f64_bits(x: f64) -> u64
    ensures { result ≡ to_bits binary64 x }
{
    f64_to_bits_with_nan(x)
}

// The octet of eight flags, the first in the lowest bit.
pub fn pack_bits(flags: [bool; 8]) -> u8
    ensures { result ≡ pack_bits flags }
{
    let mut n: u8 = 0;
    for flag in flags.iter().rev() {
        n = *flag as u8 + 2 * n;
    }
    n
}
