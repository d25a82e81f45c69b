// Signed numbers and decimals. A minus is a text of its own, apart from the digits.
ghost use Rattle.print.specs.Printing.{FitsBuffer};

use print::Printer;

// Half of the numbers of 8, 16, 32 and 64 bits.
pub const HALF8: u64 = 0x80;

pub const HALF16: u64 = 0x8000;

pub const HALF32: u64 = 0x8000_0000;

pub const HALF64: u64 = 0x8000_0000_0000_0000;

// A number in two's complement, by its bits: from `half` on they are a negative one's.
pub fn signed(printer: &mut Printer, n: u64, half: u64)
    ensures { FitsBuffer printer.new }
{
    if n < half {
        write!(printer, "{n}");
    } else {
        printer.put(b'-');
        write!(printer, "{}", half.wrapping_add(half).wrapping_sub(n));
    }
}

// A decimal, exactly: its number, and the power of ten that its scale is.
pub fn scaled(printer: &mut Printer, scale: u8, value: i32)
    ensures { FitsBuffer printer.new }
{
    signed(printer, value.cast_unsigned() as u64, HALF32);
    write!(printer, "e-{scale}");
}
