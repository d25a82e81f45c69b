// Shows a recording of AMQP 0-9-1 to people: octets of one direction come in on standard input, and a line for each frame goes out on
// standard output, then one that tells how many there were. A protocol header may stand first. The input may be of any length; a frame
// that does not fit BUFFER ends it, and so does what is no frame.
#![tactic(auto)]

ghost use Rattle.std.specs.Prelude.{◌≡◌, ◌≤◌, length};

use dissector::ending;
use dissector::ending::Ending;
use dissector::frame_line::frames;
use frame::PROTOCOL_HEADER;
use print::Printer;
use std::alloc::AllocError;
use std::io::Read;
use types::WireError;

const BUFFER: usize = 2_097_152;

// Six words a record, of which a frame has no more than an octet.
const TAPE: usize = 393_216;

const OUTPUT: usize = 65_536;

// Whether more is read: not at the end of the input, and not behind what was refused.
#[derive(Clone, Copy, PartialEq, Eq)]
enum Input {
    Open,
    Ended,
    Stopped,
}

// Octets of the input that are not yet shown: the first `held` of a lent buffer, of which the first stands at `base` of the input.
#[derive(Drop)]
struct Unshown<'a> {
    buffer: &'a mut [u8],
    held: usize,
    base: u64,
    ghost inside: { held ≤ length buffer.now },
}

// How many octets a protocol header was, and the frames so far.
#[derive(Clone, Copy)]
struct Shown {
    header: u64,
    frames: u64,
}

impl Unshown<'_> {
    fn octets(&self) -> &[u8]
        ensures { length result.now ≡ self.now.held }
    {
        &self.buffer[..self.held]
    }

    fn is_full(&self) -> bool {
        self.held == self.buffer.len()
    }

    // Reads once, behind the octets that are held.
    fn read_more(&mut self, rt: HostRuntime) -> Input {
        match rt.stdin().read(&mut self.buffer[self.held..]) {
            Ok(0) => Input::Ended,
            Ok(n) => {
                self.held += n;
                Input::Open
            }
            Err(_) => {
                let _ = eprintln!(rt; "dissect: input failed");
                Input::Ended
            }
        }
    }

    // Passes over the first n octets. Where there are none, nothing is moved: a large frame may come in small pieces.
    fn skip(&mut self, n: usize)
        requires { n ≤ self.old.held }
    {
        if n == 0 {
            return;
        }
        self.buffer.copy_within(n..self.held, 0);
        self.held -= n;
        self.base = self.base.wrapping_add(n as u64);
    }

    // What is held when no more is read.
    fn ending(&self, input: Input) -> Ending {
        let Unshown { base, held, .. } = *self;
        match input {
            Input::Stopped => Ending::Stopped { base },
            _ if held == 0 => Ending::Whole,
            _ => Ending::Truncated { base, held },
        }
    }
}

// Passes over a protocol header at the beginning of the input.
fn skip_header(unshown: &mut Unshown, shown: &mut Shown, printer: &mut Printer) {
    if unshown.base != 0 || !unshown.octets().starts_with(&PROTOCOL_HEADER) {
        return;
    }
    let len = PROTOCOL_HEADER.len();
    unshown.skip(len);
    shown.header = len as u64;
    ending::protocol_header(printer);
}

// What has stopped the frames ends the input. Only a frame that is not whole is read on, if it fits the buffer.
fn after_refusal(unshown: &Unshown, input: Input, e: WireError, printer: &mut Printer) -> Input {
    match e {
        WireError::Truncated if !unshown.is_full() => return input,
        WireError::Truncated => ending::too_large(printer, unshown.base, unshown.buffer.len()),
        _ => ending::refused(printer, unshown.base, e),
    }
    Input::Stopped
}

// Reads once, and shows what has come whole. No frame has less than eight octets, and the protocol header has as many.
fn turn(
    rt: HostRuntime,
    unshown: &mut Unshown,
    shown: &mut Shown,
    tape: &mut [u64],
    printer: &mut Printer,
) -> Input {
    let input = unshown.read_more(rt);
    if unshown.held < 8 && input == Input::Open {
        return input;
    }
    skip_header(unshown, shown, printer);
    let walked = frames(printer, unshown.base, unshown.octets(), tape);
    unshown.skip(walked.consumed);
    shown.frames = shown.frames.wrapping_add(walked.frames as u64);
    match walked.refusal {
        None => input,
        Some(e) => after_refusal(unshown, input, e, printer),
    }
}

// Reads to the end of the input, in no more reads than a number says: no contract says that the input ends.
fn dissect(rt: HostRuntime, buffer: &mut [u8], tape: &mut [u64], printer: &mut Printer) {
    let mut unshown = Unshown {
        buffer,
        held: 0,
        base: 0,
    };
    let mut shown = Shown {
        header: 0,
        frames: 0,
    };
    let mut input = Input::Open;
    for _ in 0..u64::MAX {
        input = turn(rt, &mut unshown, &mut shown, tape, printer);
        if input != Input::Open {
            break;
        }
    }
    let octets = unshown.base.wrapping_sub(shown.header);
    ending::summary(printer, shown.frames, octets, unshown.ending(input));
    printer.flush();
}

fn main(rt: HostRuntime) -> Result<(), AllocError> {
    let mut buffer = vec![in rt.alloc(); 0u8; BUFFER]?;
    let mut tape = vec![in rt.alloc(); 0u64; TAPE]?;
    let mut out = vec![in rt.alloc(); 0u8; OUTPUT]?;
    let mut printer = Printer::new(rt, &mut out);
    dissect(rt, &mut buffer, &mut tape, &mut printer);
    Ok(())
}
