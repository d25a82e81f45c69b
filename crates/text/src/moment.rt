// Moments.
ghost use Rattle.print.specs.Printing.{FitsBuffer};

use print::Printer;

// Two digits behind a separator.
fn two_digits(printer: &mut Printer, separator: u8, n: u8) {
    printer.text(&[separator, b'0' + n / 10 % 10, b'0' + n % 10]);
}

// POSIX seconds, and the moment that they are in UTC. Each part is one text with what stands beside it, so that no write comes between:
// the Display of a moment knows nothing of the bracket behind it.
pub fn timestamp(printer: &mut Printer, seconds: u64)
    ensures { FitsBuffer printer.new }
{
    let t = utc::date_time(seconds);
    write!(printer, "{seconds} ({}", t.year);
    two_digits(printer, b'-', t.month);
    two_digits(printer, b'-', t.day);
    two_digits(printer, b' ', t.hour);
    two_digits(printer, b':', t.minute);
    two_digits(printer, b':', t.second);
    printer.text(b" UTC)");
}
