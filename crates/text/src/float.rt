// Floats, in the fewest decimal digits that are read back as the same bits; an integer times a power of two where that would take
// too many. A float is mantissa * 2^(scale - offset).
ghost use Rattle.print.specs.Printing.{FitsBuffer};
ghost use Rattle.std.specs.Iterator.{at_most};
ghost use Rattle.std.specs.Prelude.{◌≡◌, ◌<◌, ◌≤◌, ◌-◌, ◌^◌, false};

use print::Printer;
use std::num::{f32_to_bits_with_nan, f64_to_bits_with_nan};

// Numbers below 1 are in units of 2^-120.
const ONE: u128 = 1 << 120;

// The digits behind the point, up to the first that are nearer to the value than half the way to the next float: what is left of the
// value behind the digits so far, and half the way, both times ten for each of these.
#[derive(Clone, Copy)]
struct Digits {
    rest: u128,
    half_way: u128,
    ghost below_one: { rest < 2 ^ 120 },
    ghost positive: { 0 < half_way },
}

impl Digits {
    // Whether the rest is as good as 0 or as 1, so that no digit follows.
    fn is_near_enough(self) -> bool
        ensures { (result ≡ false) → (self.half_way ≤ self.rest) }
    {
        self.rest < self.half_way || ONE - self.rest < self.half_way
    }

    // What the last digit is more, so that it is the nearest. It is no 9 then: else there would have been one digit less.
    fn rounded(self) -> u8
        ensures { result ≤ 1 }
    {
        (ONE / 2 <= self.rest) as u8
    }
}

impl Iterator for Digits {
    // As ASCII.
    type Item = u8;

    // Half the way grows until it is more than the rest.
    ghost remaining = { λ d. at_most (2 ^ 120 - d.half_way) };

    fn next(&mut self) -> Option<u8> {
        if self.is_near_enough() {
            return None;
        }
        let tenths = self.rest * 10;
        *self = Digits {
            rest: tenths % ONE,
            half_way: self.half_way * 10,
        };
        let digit = b'0' + (tenths / ONE) as u8;
        Some(if self.is_near_enough() {
            digit + self.rounded()
        } else {
            digit
        })
    }
}

// What tells a format from another: the weight of the bit that is not stored, the exponent of infinity (all of its bits are set), and the
// offset.
#[derive(Clone, Copy)]
struct Format {
    unstored: u64,
    infinity: u64,
    offset: u64,
    ghost has_fraction: { 0 < unstored },
}

const BINARY32: Format = Format {
    unstored: 0x80_0000,
    infinity: 0xFF,
    offset: 150,
};

const BINARY64: Format = Format {
    unstored: 0x10_0000_0000_0000,
    infinity: 0x7FF,
    offset: 1075,
};

// The fields of a float.
#[derive(Clone, Copy)]
struct Fields {
    format: Format,
    negative: bool,
    exponent: u64,
    fraction: u64,
}

// The digits behind the point are one text. There is room: half the way is 2^8 units at the least, and more than 1 behind 34 digits.
fn with_point(printer: &mut Printer, integer: u64, digits: Digits) {
    if digits.is_near_enough() {
        return write!(printer, "{}", integer.wrapping_add(digits.rounded() as u64));
    }
    let mut text = [0u8; 64];
    let mut count = 0;
    for digit in digits {
        if let Some(place) = text.get_mut(count) {
            *place = digit;
            count += 1;
        }
    }
    write!(printer, "{integer}.");
    printer.text(&text[..count]);
}

fn power(printer: &mut Printer, mantissa: u64, sign: &str, exponent: u64) {
    write!(printer, "{mantissa} * 2^{sign}{exponent}");
}

// mantissa * 2^-places. Half the way to the next float is half a unit of the mantissa; below a power of two it is half as far.
fn digits_of(mantissa: u64, places: u32, power_of_two: bool) -> Digits
    requires { places ≤ 110 }
{
    let unit = 120 - places;
    Digits {
        rest: ((mantissa as u128) << unit) % ONE,
        half_way: 1 << if power_of_two { unit - 2 } else { unit - 1 },
    }
}

impl Fields {
    fn of(format: Format, bits: u64) -> Fields {
        let above = bits / format.unstored;
        Fields {
            format,
            negative: format.infinity < above,
            exponent: above & format.infinity,
            fraction: bits % format.unstored,
        }
    }

    fn finite(self, printer: &mut Printer, mantissa: u64, scale: u64) {
        let Format { offset, .. } = self.format;
        if offset <= scale {
            let up = scale - offset;
            if up <= 10 {
                return write!(printer, "{}", mantissa << up);
            }
            return power(printer, mantissa, "", up);
        }
        let places = offset - scale;
        if 110 < places {
            return power(printer, mantissa, "-", places);
        }
        let places = places as u32;
        let integer = mantissa.checked_shr(places).unwrap_or(0);
        with_point(
            printer,
            integer,
            digits_of(mantissa, places, self.fraction == 0),
        );
    }

    fn show(self, printer: &mut Printer) {
        if self.negative {
            printer.put(b'-');
        }
        if self.exponent == self.format.infinity {
            return printer.text(b"inf");
        }
        if self.exponent != 0 {
            let mantissa = self.fraction.wrapping_add(self.format.unstored);
            return self.finite(printer, mantissa, self.exponent);
        }
        if self.fraction == 0 {
            return printer.put(b'0');
        }
        self.finite(printer, self.fraction, 1);
    }
}

pub fn float32(printer: &mut Printer, x: f32)
    ensures { FitsBuffer printer.new }
{
    let bits = f32_to_bits_with_nan(x) as u64;
    Fields::of(BINARY32, bits).show(printer);
}

pub fn float64(printer: &mut Printer, x: f64)
    ensures { FitsBuffer printer.new }
{
    let bits = f64_to_bits_with_nan(x);
    Fields::of(BINARY64, bits).show(printer);
}

// A NaN is its bits.
pub fn nan(printer: &mut Printer, bits: u64)
    ensures { FitsBuffer printer.new }
{
    printer.text(b"NaN 0x");
    printer.hex(bits);
}
