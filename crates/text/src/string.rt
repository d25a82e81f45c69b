// Strings, in quotes. What could be taken for something else or could steer a terminal stands as \xNN: quotes, backslashes, control
// characters (also those of two octets, U+0080 to U+009F), and the octets above 7F of what is not UTF-8.
ghost use Rattle.print.specs.Printing.{FitsBuffer};
ghost use Rattle.std.specs.Prelude.{◌<◌, length};

use print::Printer;
use types::Span;

// Whether an octet is the first or the second of a control character of two.
fn is_control(s: &[u8], i: usize) -> bool
    requires { i < length s.now }
{
    match s[i] {
        0xC2 => i + 1 < s.len() && s[i + 1] < 0xA0,
        b => b < 0xA0 && 0 < i && s[i - 1] == 0xC2,
    }
}

fn is_plain(s: &[u8], i: usize, utf8: bool) -> bool
    requires { i < length s.now }
{
    match s[i] {
        b'"' | b'\\' => false,
        b' '..=b'~' => true,
        b => 0x7F < b && utf8 && !is_control(s, i),
    }
}

// Plain octets that stand together are one text, so that no write parts them.
pub fn quoted(printer: &mut Printer, s: &[u8])
    ensures { FitsBuffer printer.new }
{
    let utf8 = utf8::scan_utf8(s).is_ok();
    printer.put(b'"');
    let mut from = 0;
    for i in 0..s.len() {
        if !is_plain(s, i, utf8) {
            if from < i {
                printer.text(&s[from..i]);
            }
            from = i + 1;
            printer.text(b"\\x");
            printer.octets(&s[i..from]);
        }
    }
    printer.text(&s[from..]);
    printer.put(b'"');
}

// Octets that are no text.
pub fn octets(printer: &mut Printer, s: &[u8])
    ensures { FitsBuffer printer.new }
{
    printer.text(b"0x");
    printer.octets(s);
}

// A span of `s` as text. One that reaches outside, as no reader answers it, shows as `?`.
pub fn quoted_span(printer: &mut Printer, s: &[u8], v: Span)
    ensures { FitsBuffer printer.new }
{
    match v.octets_in(s) {
        None => printer.put(b'?'),
        Some(part) => quoted(printer, part),
    }
}

// A span of `s` that is no text. One function for both would take the function that shows the octets, and be no shorter.
pub fn octets_span(printer: &mut Printer, s: &[u8], v: Span)
    ensures { FitsBuffer printer.new }
{
    match v.octets_in(s) {
        None => printer.put(b'?'),
        Some(part) => octets(printer, part),
    }
}
