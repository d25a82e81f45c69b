// The frame encoder: type octet, channel, size, payload, frame end, around payload octets as they are.
ghost use Rattle.std.specs.Prelude.{◌≡◌, [], ◌∷◌, ◌+◌, ◌≤◌, length};
ghost use Rattle.types.specs.Memory.{splice, outcome};
ghost use Rattle.writers.specs.AnswerOf.{answer_of_written};
ghost use Rattle.frame.specs.Frame.{frame_end, encode};
ghost use Rattle.frame.specs.AnswerOf.{type_octet};
ghost use Rattle.frame_writer.specs.Parts.{frame_head};

use frame::{FRAME_END, FrameType};
use types::WireError;
use writers::{MAX_LENGTH, Written, has_octets, write_octets, write_u8, write_u16, write_u32};

// Type octet, channel, size and frame end around a payload of `len` octets that stands behind the first seven.
pub(crate) fn close_frame(
    out: &mut [u8],
    at: usize,
    frame_type: FrameType,
    channel: u16,
    len: usize,
)
    requires { (at + len + 8 ≤ length out.old) × (len ≤ 4294967295) }
    ensures { out.new ≡ splice (at + 7 + len) (frame_end ∷ []) (splice at (frame_head (type_octet frame_type) channel len) out.old) }
{
    write_u8(out, at, frame_type.octet()).unwrap();
    write_u16(out, at + 1, channel).unwrap();
    write_u32(out, at + 3, (len % 0x1_0000_0000) as u32).unwrap();
    write_u8(out, at + 7 + len, FRAME_END).unwrap();
}

// Writes a frame at a place of the output: the payload's length is judged, then the space.
pub fn encode(
    out: &mut [u8],
    at: usize,
    frame_type: FrameType,
    channel: u16,
    payload: &[u8],
) -> Written
    ensures { outcome (answer_of_written result) out.new ≡ encode (type_octet frame_type) channel payload.now at out.old }
{
    let len = payload.len();
    if MAX_LENGTH < len {
        return Err(WireError::TooLong);
    }
    if !has_octets(out, at, len + 8) {
        return Err(WireError::NoSpace);
    }
    write_octets(out, at + 7, payload).unwrap();
    close_frame(out, at, frame_type, channel, len);
    Ok(at + len + 8)
}
