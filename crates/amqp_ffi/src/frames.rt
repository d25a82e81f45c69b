// Frames and the walk. A refusal leaves the output, and the tape, as they were; the walk leaves them as the frames that it read do.
ghost use Rattle.std.specs.Prelude.{◌≡◌};
ghost use Rattle.tables.specs.Letters.{errata};
ghost use Rattle.frame.specs.Frame.{decode_at};
ghost use Rattle.frame.specs.Step.{read_frame};
ghost use Rattle.frame.specs.Walk.{walk};
ghost use Rattle.payload_words.specs.Words.{payload_from};
ghost use Rattle.frame_reader.specs.AnswerOf.{stop_refusal};
ghost use Rattle.amqp_ffi.specs.Reply.{reply, reply_of, reply_with, reply_with_of, walk_reply, walk_reply_of, stop_reply, frame_reply, frame_reply_of, decoded, nothing};
ghost use Rattle.amqp_ffi.specs.Frames.{write_from};

use crate::reply::{give, refuse, reply_written};
use frame_reader::Walked;
use frame_reader::decode::decode;
use frame_reader::walk::walk;
use frame_reader::words::read_frame_words;
use frame_writer::write::write_frame;
use payload_words::payload_from;
use types::Cursor;

// Type, channel, and the length of the payload, which begins behind the first seven octets.
#[unsafe(no_mangle)]
pub extern "C" fn amqp_decode(s: &[u8], at: usize, words: &mut [u64; 4]) -> u32
    ensures { reply result words.new ≡ reply_of decoded (decode_at s.now at) }
{
    match decode(s, Cursor { at }) {
        Err(e) => refuse(words, e),
        Ok((f, next)) => {
            give(
                words,
                next.at,
                [
                    f.frame_type.octet() as u64,
                    f.channel as u64,
                    f.payload.len as u64,
                ],
            )
        }
    }
}

// Type, channel, and how many tape records the frame has; and what its payload says, as words (crates/payload_words). A refusal
// leaves the payload's words as they were.
#[unsafe(no_mangle)]
pub extern "C" fn amqp_read_frame(
    s: &[u8],
    at: usize,
    tape: &mut [u64],
    used: usize,
    payload: &mut [u64; 26],
    words: &mut [u64; 4],
) -> u32
    ensures { frame_reply result words.new tape.new payload.new ≡ frame_reply_of (read_frame errata s.now at used tape.old) payload.old }
{
    match read_frame_words(s, Cursor { at }, tape, used, payload) {
        Err(e) => refuse(words, e),
        Ok((frame, next)) => {
            give(
                words,
                next.at,
                [payload[0], frame.channel as u64, frame.records as u64],
            )
        }
    }
}

fn reply_walked(words: &mut [u64; 4], w: Walked) -> u32
    ensures { reply result words.new ≡ stop_reply w.consumed w.frames (stop_refusal w.refusal) }
{
    match w.refusal {
        None => give(words, w.consumed, [w.frames as u64, 0, 0]),
        Some(e) => {
            let r = e.numbered();
            *words = [w.consumed as u64, w.frames as u64, r.first, r.second];
            r.number as u32
        }
    }
}

// Octets consumed, frames read, and the values of the refusal that stopped it, whose number is returned.
#[unsafe(no_mangle)]
pub extern "C" fn amqp_walk(
    s: &[u8],
    tape: &mut [u64],
    register: &mut [u64],
    words: &mut [u64; 4],
) -> u32
    ensures { walk_reply result words.new tape.new register.new ≡ walk_reply_of (walk errata s.now tape.old register.old) }
{
    reply_walked(words, walk(s, tape, register))
}

// The frame of a payload that is given as words (crates/payload_words); its strings and its body are spans of the pool.
#[unsafe(no_mangle)]
pub extern "C" fn amqp_write_frame(
    out: &mut [u8],
    at: usize,
    channel: u16,
    payload: &[u64; 26],
    pool: &[u8],
    tape: &[u64],
    words: &mut [u64; 4],
) -> u32
    ensures { reply_with result words.new out.new ≡ reply_with_of nothing (write_from errata channel pool.now tape.now (payload_from payload.now) at out.old) }
{
    match payload_from(*payload) {
        Err(e) => refuse(words, e),
        Ok(given) => reply_written(words, write_frame(out, at, channel, given, pool, tape)),
    }
}
