// The lines that are no frame's: the protocol header, what ends the frames, and the last one.
ghost use Rattle.print.specs.Printing.{FitsBuffer};

use crate::refusal;
use print::Printer;
use types::WireError;

pub fn protocol_header(printer: &mut Printer)
    ensures { FitsBuffer printer.new }
{
    printer.text(b"0 protocol header AMQP 0-9-1\n");
}

// What stands at `base` is no frame.
pub fn refused(printer: &mut Printer, base: u64, e: WireError)
    ensures { FitsBuffer printer.new }
{
    write!(printer, "{base}");
    refusal::refused(printer, base, e);
    printer.put(b'\n');
}

// The frame at `base` is larger than the buffer.
pub fn too_large(printer: &mut Printer, base: u64, buffer: usize)
    ensures { FitsBuffer printer.new }
{
    writeln!(
        printer,
        "{base} a frame is larger than the buffer of {buffer} octets"
    );
}

// How the frames end: behind a whole one, before what was refused, or with so many octets of one that is not whole.
#[derive(Clone, Copy)]
pub enum Ending {
    Whole,
    Stopped { base: u64 },
    Truncated { base: u64, held: usize },
}

// The last line: the frames and their octets, and how they end.
pub fn summary(printer: &mut Printer, frames: u64, octets: u64, ending: Ending)
    ensures { FitsBuffer printer.new }
{
    write!(printer, "end: {frames} frames, {octets} octets");
    match ending {
        Ending::Whole => printer.put(b'\n'),
        Ending::Stopped { base } => writeln!(printer, ", stopped at {base}"),
        Ending::Truncated { base, held } => {
            writeln!(printer, ", Truncated at {base}: {held} octets of a frame");
        }
    }
}
