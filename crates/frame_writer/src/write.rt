// The frame writer. A payload goes straight into the output, between octets that are put when it has been accepted.
ghost use Rattle.std.specs.Prelude.{◌≡◌, length, None};
ghost use Rattle.types.specs.Answer.{truncated};
ghost use Rattle.types.specs.AnswerOf.{refusal, or_refusal};
ghost use Rattle.types.specs.Strings.{octets_of};
ghost use Rattle.types.specs.Judgement.{test};
ghost use Rattle.types.specs.Memory.{outcome};
ghost use Rattle.writers.specs.Writers.{write_at};
ghost use Rattle.writers.specs.AnswerOf.{answer_of_written};
ghost use Rattle.tables.specs.Letters.{errata};
ghost use Rattle.tables.specs.Writing.{in_pool};
ghost use Rattle.table_writer.specs.Sizes.{sized};
ghost use Rattle.frame.specs.Writing.{payload_refusal, write_frame};
ghost use Rattle.frame.specs.AnswerOf.{payload_of};
ghost use Rattle.frame_writer.specs.Parts.{PayloadEnd, put_payload, why_not, payload_octets};

use crate::encode::close_frame;
use frame::Payload;
use method_writer::commands::{judge_command, write_command};
use method_writer::headers::{judge_content_header, write_content_header};
use types::{Span, WireError};
use writers::{MAX_LENGTH, Written, has_octets, write_octets};

// The pool and the tape stay apart here: each arm of judge_payload and write_payload would take one struct of both to pieces again, since
// the writers of commands and headers take them as C lends them.

// Where a payload that begins behind the first seven octets of its frame must end: with an octet left for the frame end, and no longer
// than a size can say. None where there is no space for a frame at all, not even for one with a payload of no octets.
fn payload_end(out: &[u8], at: usize) -> Option<usize>
    ensures { PayloadEnd at out.now result }
{
    if !has_octets(out, at, 8) {
        return None;
    }
    let longest = (out.len() - at - 8).min(MAX_LENGTH);
    Some(at + 7 + longest)
}

// A span outside the pool has fewer octets than it needs.
fn judge_body(span: Span, pool: &[u8]) -> Result<usize, WireError>
    ensures { or_refusal (λ n. n) result ≡ sized (test (in_pool pool.now span.start span.len) truncated None) (length (octets_of pool.now span)) }
{
    let Some(body) = span.octets_in(pool) else {
        return Err(WireError::Truncated);
    };
    Ok(body.len())
}

// Judges a payload as its writer does, but for the space.
#[tactic(auto, unfolding(frame::specs::Writing::frame_payload_octets))]
fn judge_payload(payload: Payload, pool: &[u8], tape: &[u64]) -> Result<usize, WireError>
    ensures { or_refusal (λ n. n) result ≡ sized (payload_refusal errata pool.now tape.now (payload_of payload)) (length (payload_octets pool.now tape.now (payload_of payload))) }
{
    match payload {
        Payload::Command(command) => judge_command(command, pool, tape),
        Payload::Header(header) => judge_content_header(header, pool, tape),
        Payload::Body(span) => judge_body(span, pool),
        Payload::Heartbeat => Ok(0),
    }
}

fn write_body(out: &mut [u8], at: usize, span: Span, pool: &[u8]) -> Written
    ensures { outcome (answer_of_written result) out.new ≡ write_at (test (in_pool pool.now span.start span.len) truncated None) (octets_of pool.now span) at out.old }
{
    let Some(body) = span.octets_in(pool) else {
        return Err(WireError::Truncated);
    };
    write_octets(out, at, body)
}

// Writes a payload by itself.
#[tactic(auto, unfolding(frame::specs::Writing::frame_payload_octets, method::specs::Pooled::write_command, method::specs::Pooled::write_header, writers::specs::Writers::write_octets))]
fn write_payload(out: &mut [u8], at: usize, payload: Payload, pool: &[u8], tape: &[u64]) -> Written
    ensures { outcome (answer_of_written result) out.new ≡ write_at (payload_refusal errata pool.now tape.now (payload_of payload)) (payload_octets pool.now tape.now (payload_of payload)) at out.old }
{
    match payload {
        Payload::Command(command) => write_command(out, at, command, pool, tape),
        Payload::Header(header) => write_content_header(out, at, header, pool, tape),
        Payload::Body(span) => write_body(out, at, span, pool),
        Payload::Heartbeat => write_octets(out, at, &[]),
    }
}

// Puts a payload behind the first seven octets of its frame, where it is accepted and the frame has space: the place behind it.
fn put_payload(
    out: &mut [u8],
    at: usize,
    payload: Payload,
    pool: &[u8],
    tape: &[u64],
) -> Option<usize>
    ensures { (result, out.new) ≡ put_payload (payload_refusal errata pool.now tape.now (payload_of payload)) (payload_octets pool.now tape.now (payload_of payload)) at out.old }
{
    let end = payload_end(out, at)?;
    write_payload(&mut out[..end], at + 7, payload, pool, tape).ok()
}

// Why a payload was not written: its own refusal, then its length, then the space.
fn not_written(payload: Payload, pool: &[u8], tape: &[u64]) -> WireError
    ensures { refusal result ≡ why_not (sized (payload_refusal errata pool.now tape.now (payload_of payload)) (length (payload_octets pool.now tape.now (payload_of payload)))) }
{
    match judge_payload(payload, pool, tape) {
        Err(e) => e,
        Ok(n) if MAX_LENGTH < n => WireError::TooLong,
        Ok(_) => WireError::NoSpace,
    }
}

// Writes a frame whose strings and body are spans of the pool. A table in it is the tape; without one the tape is not read.
pub fn write_frame(
    out: &mut [u8],
    at: usize,
    channel: u16,
    payload: Payload,
    pool: &[u8],
    tape: &[u64],
) -> Written
    ensures { outcome (answer_of_written result) out.new ≡ write_frame errata (record { channel = channel; payload = payload_of payload; pool = pool.now; tape = tape.now }) at out.old }
{
    // No ok_or_else: its closure would be lent all three parameters to say what stands behind this else.
    let Some(next) = put_payload(out, at, payload, pool, tape) else {
        return Err(not_written(payload, pool, tape));
    };
    close_frame(out, at, payload.frame_type(), channel, next - at - 7);
    Ok(next + 1)
}
