// The reading step in words: a frame is decoded, then its payload is read as command, content header, body or heartbeat, and put into the
// 26 words that are lent for it (crates/payload_words). A refusal leaves them as they were.
ghost use Rattle.std.specs.Prelude.{◌≡◌, List, ℕ, ◌+◌, ◌≤◌, length};
ghost use Rattle.tables.specs.Letters.{errata};
ghost use Rattle.tables.specs.Tape.{room_of, fill_tape};
ghost use Rattle.method.specs.Reading.{read_command, read_header};
ghost use Rattle.method_words.specs.Words.{call_of, header_words};
ghost use Rattle.method_words.specs.InWords.{words_outcome, in_words};
ghost use Rattle.payload_words.specs.Words.{call_words, content_header_words};
ghost use Rattle.frame.specs.Step.{frame_with_payload_at, read_frame};
ghost use Rattle.frame.specs.AnswerOf.{frame_of};
ghost use Rattle.frame_reader.specs.Words.{frame_words, with_channel};
ghost use Rattle.frame_reader.specs.AnswerOf.{answer_of_payload_words, answer_of_frame_words};

use crate::ReadFrameWords;
use crate::decode::decode;
use frame::{Frame, FrameType};
use method_reader::commands::read_call;
use method_reader::headers::read_header_words;
use method_words::{Call, HeaderWords};
use payload_words::{body_words, call_words, content_header_words, heartbeat_words};
use types::{Cursor, Read, Span, WireError};

// A command that ends with the octets.
fn read_method(
    s: &[u8],
    at: Cursor,
    tape: &mut [u64],
    used: usize,
    payload: &mut [u64; 26],
) -> Read<usize>
    ensures { words_outcome (answer_of_payload_words result payload.new) payload.new tape.new ≡ in_words (λ x. call_words (call_of x)) (λ w. w) payload.old (read_command errata s.now at.at used tape.old) }
{
    let mut words = [0u64; 8];
    let (call, next) = read_call(s, at, tape, used, &mut words)?;
    *payload = call_words(Call {
        class: call.class,
        method: call.method,
        words,
    });
    Ok((call.records, next))
}

fn read_header(
    s: &[u8],
    at: Cursor,
    tape: &mut [u64],
    used: usize,
    payload: &mut [u64; 26],
) -> Read<usize>
    ensures { words_outcome (answer_of_payload_words result payload.new) payload.new tape.new ≡ in_words (λ x. content_header_words (header_words x)) (λ w. w) payload.old (read_header errata s.now at.at used tape.old) }
{
    let mut words = [0u64; 22];
    let (header, next) = read_header_words(s, at, tape, used, &mut words)?;
    *payload = content_header_words(HeaderWords {
        class: header.class,
        body_size: header.body_size,
        present: header.present,
        words,
    });
    Ok((header.records, next))
}

// What was read of a payload, as the answer of its frame.
fn frame_of(channel: u16, next: Cursor, payload: Read<usize>) -> Read<ReadFrameWords>
    ensures { (w : List ℕ) → answer_of_frame_words result w ≡ with_channel channel next.at (answer_of_payload_words payload w) }
{
    let (records, _) = payload?;
    Ok((ReadFrameWords { channel, records }, next))
}

// The payload of a frame that was decoded. Its readers are given the octets up to its end, so places count from the first octet.
fn read_payload(
    s: &[u8],
    frame: Frame,
    next: Cursor,
    tape: &mut [u64],
    used: usize,
    payload: &mut [u64; 26],
) -> Read<ReadFrameWords>
    requires { frame.payload.start + frame.payload.len ≤ length s.now }
    ensures { words_outcome (answer_of_frame_words result payload.new) payload.new tape.new ≡ in_words frame_words (λ x. x.payload) payload.old (fill_tape used tape.old (frame_with_payload_at errata s.now (frame_of frame) next.at (room_of used tape.old))) }
{
    let channel = frame.channel;
    let Span { start, len } = frame.payload;
    let at = Cursor { at: start };
    let part = &s[..start + len];
    let without_records = ReadFrameWords {
        channel,
        records: 0,
    };
    match frame.frame_type {
        FrameType::Method => { frame_of(channel, next, read_method(part, at, tape, used, payload)) }
        FrameType::Header => { frame_of(channel, next, read_header(part, at, tape, used, payload)) }
        FrameType::Body => {
            *payload = body_words(frame.payload);
            Ok((without_records, next))
        }
        FrameType::Heartbeat => {
            if 0 < len {
                return Err(WireError::NotWritten(start));
            }
            *payload = heartbeat_words();
            Ok((without_records, next))
        }
    }
}

// Reads the frame at a position in words, and fills the records behind the used ones if it has a table.
pub fn read_frame_words(
    s: &[u8],
    at: Cursor,
    tape: &mut [u64],
    used: usize,
    payload: &mut [u64; 26],
) -> Read<ReadFrameWords>
    ensures { words_outcome (answer_of_frame_words result payload.new) payload.new tape.new ≡ in_words frame_words (λ x. x.payload) payload.old (read_frame errata s.now at.at used tape.old) }
{
    let (frame, next) = decode(s, at)?;
    read_payload(s, frame, next, tape, used, payload)
}
