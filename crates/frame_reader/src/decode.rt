// The frame decoder: type octet, channel, size, payload, frame end. The payload is not read.
ghost use Rattle.std.specs.Prelude.{◌≡◌};
ghost use Rattle.frame.specs.Frame.{decode_at};
ghost use Rattle.frame.specs.AnswerOf.{frame_of};
ghost use Rattle.types.specs.AnswerOf.{answer_with};

use frame::{FRAME_END, Frame, FrameType};
use types::{Cursor, Read, WireError};

// Decodes the frame at a position. Always inlined, since every reading step begins with it.
#[inline(always)]
pub fn decode(s: &[u8], at: Cursor) -> Read<Frame>
    ensures { answer_with frame_of result ≡ decode_at s.now at.at }
{
    // The type is judged where all seven octets before the payload are there.
    at.span(s, 7)?;
    let (octet, behind_type) = at.u8(s)?;
    let frame_type = FrameType::from_u8(octet).ok_or(WireError::UnsupportedFieldType(octet))?;
    let (channel, behind_channel) = behind_type.u16(s)?;
    let (len, start) = behind_channel.u32(s)?;
    let (payload, end) = start.span(s, len as usize)?;
    let (last, next) = end.u8(s)?;
    if last != FRAME_END {
        return Err(WireError::UnsupportedFieldType(last));
    }
    let frame = Frame {
        frame_type,
        channel,
        payload,
    };
    Ok((frame, next))
}
