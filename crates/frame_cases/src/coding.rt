// Frames whose payload is not read, the protocol header, and frames that are read and written again.
use cases::answer;
use cases::answer::{NoAnswer, Told, Values};
use frame::{Frame, FrameType, PROTOCOL_HEADER};
use frame_reader::ReadFrame;
use frame_reader::decode::decode;
use frame_reader::step::read_frame;
use frame_writer::encode::encode;
use frame_writer::write::write_frame;
use table_cases::case::{Case, octet_of, u16_of};
use tables::tape::RECORD_WORDS;
use types::Cursor;

// Type, channel and payload.
fn of_frame(frame: Frame) -> Values {
    let frame_type = frame.frame_type.octet() as u64;
    Values {
        octets: Some(frame.payload),
        ..Values::numbers(frame_type, frame.channel as u64)
    }
}

pub fn decoded(s: &[u8], at: usize) -> Told {
    let (frame, next) = decode(s, Cursor { at })?;
    answer::told(next.at, of_frame(frame))
}

// Type, channel and payload.
pub fn encoded(case: Case, lent: &mut [u8]) -> Told {
    let octet = octet_of(case.field(0)).ok_or(NoAnswer::NoCase)?;
    let channel = u16_of(case.field(1)).ok_or(NoAnswer::NoCase)?;
    let frame_type = FrameType::from_u8(octet).ok_or(NoAnswer::NoCase)?;
    answer::of_written(encode(lent, case.at, frame_type, channel, case.field(2)))
}

// The constant, as plain octets.
pub fn protocol_header(lent: &mut [u8], at: usize) -> Told {
    answer::of_written(writers::write_octets(lent, at, &PROTOCOL_HEADER))
}

// A frame that was read, written from its octets and the records that it filled.
fn write_again(frame: ReadFrame, s: &[u8], tape: &[u64], lent: &mut [u8]) -> Told {
    let words = frame.records.checked_mul(RECORD_WORDS);
    let filled = words.and_then(|n| tape.get(..n)).ok_or(NoAnswer::NoCase)?;
    answer::of_written(write_frame(lent, 0, frame.channel, frame.payload, s, filled))
}

// The frame at a position of `s`, written from the first lent octet on.
pub fn relayed(s: &[u8], at: usize, tape: &mut [u64], lent: &mut [u8]) -> Told {
    let (frame, _) = read_frame(s, Cursor { at }, tape, 0)?;
    write_again(frame, s, tape, lent)
}
