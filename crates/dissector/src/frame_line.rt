// Frames, a line each.
ghost use Rattle.print.specs.Printing.{FitsBuffer};
ghost use Rattle.std.specs.Prelude.{◌≤◌, length};

use crate::command::{arguments_of, command};
use crate::header::header;
use crate::refusal::refused;
use crate::reply::values_in;
use frame::{Frame, FrameType, Payload};
use frame_reader::Walked;
use frame_reader::decode::decode;
use frame_reader::step::read_frame;
use method::Command;
use print::Printer;
use replies::method_id;
use types::{Cursor, Span};

// A command that was read: class and method stand first in its payload.
fn read_command(printer: &mut Printer, s: &[u8], payload: Span, c: Command) {
    if let Ok((id, _)) = method_id(s, Cursor { at: payload.start }) {
        command(printer, s, id, arguments_of(c));
    }
}

// What is told of a payload that was refused, as far as it has it: of a command class and method, and of a reply also what its reader
// takes; of a content header the class.
fn refused_payload(printer: &mut Printer, octets: &[u8], frame_type: FrameType) {
    let at = Cursor { at: 0 };
    match frame_type {
        FrameType::Method => {
            if let Ok((id, _)) = method_id(octets, at) {
                let values = values_in(octets, at, id).unwrap_or([None, None, None]);
                command(printer, octets, id, values);
            }
        }
        FrameType::Header => {
            if let Ok((class, _)) = at.u16(octets) {
                write!(printer, " class={class}");
            }
        }
        FrameType::Body | FrameType::Heartbeat => {}
    }
}

// No Display in `frame`: these names would be there for this line alone, and differ from those of Debug.
fn name_of(frame_type: FrameType) -> &'static str {
    match frame_type {
        FrameType::Method => "method",
        FrameType::Header => "header",
        FrameType::Body => "body",
        FrameType::Heartbeat => "heartbeat",
    }
}

// The line of a frame that was decoded at `first`: its place, its channel and its type, then its payload, or the refusal of that. The
// first octet of `s` stands at `base` of the input.
fn line(printer: &mut Printer, base: u64, s: &[u8], first: usize, f: Frame, tape: &mut [u64]) {
    let place = base.wrapping_add(first as u64);
    write!(
        printer,
        "{place} channel={} {}",
        f.channel,
        name_of(f.frame_type)
    );
    match read_frame(s, Cursor { at: first }, tape, 0) {
        Ok((frame, _)) => match frame.payload {
            Payload::Command(c) => read_command(printer, s, f.payload, c),
            Payload::Header(h) => header(printer, s, tape, h),
            Payload::Body(body) => write!(printer, " size={}", body.len),
            Payload::Heartbeat => {}
        },
        Err(e) => {
            if let Some(octets) = f.payload.octets_in(s) {
                refused_payload(printer, octets, f.frame_type);
            }
            refused(printer, base, e)
        }
    }
    printer.put(b'\n');
}

// The frames of some octets, up to the first that is none or not whole. A payload that is refused does not stop them. The loop goes on
// where a frame ends, and an iterator of frames would have to be asked for that place behind the loop.
pub fn frames(printer: &mut Printer, base: u64, s: &[u8], tape: &mut [u64]) -> Walked
    ensures consumed { result.consumed ≤ length s.now }
    ensures printed { FitsBuffer printer.new }
{
    let mut walked = Walked {
        frames: 0,
        consumed: 0,
        refusal: None,
    };
    while walked.consumed < s.len() {
        let first = walked.consumed;
        match decode(s, Cursor { at: first }) {
            Err(e) => {
                walked.refusal = Some(e);
                break;
            }
            Ok((f, behind)) => {
                line(printer, base, s, first, f, tape);
                walked.consumed = behind.at;
                walked.frames += 1;
            }
        }
    }
    walked
}
