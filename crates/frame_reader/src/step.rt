// The reading step: a frame with its payload as command, content header, body or heartbeat.
ghost use Rattle.std.specs.Prelude.{◌≡◌};
ghost use Rattle.types.specs.Memory.{outcome};
ghost use Rattle.tables.specs.Letters.{errata};
ghost use Rattle.frame.specs.Step.{read_frame};
ghost use Rattle.frame_reader.specs.AnswerOf.{answer_of_read_frame};

use crate::ReadFrame;
use crate::words::read_frame_words;
use payload_words::payload_from;
use types::{Cursor, Read};

// Reads the frame at a position, and fills the records behind the used ones if it has a table.
pub fn read_frame(s: &[u8], at: Cursor, tape: &mut [u64], used: usize) -> Read<ReadFrame>
    ensures { outcome (answer_of_read_frame result) tape.new ≡ read_frame errata s.now at.at used tape.old }
{
    let mut words = [0u64; 26];
    let (frame, next) = read_frame_words(s, at, tape, used, &mut words)?;
    // Words that were read stand for a payload, so none is refused.
    let payload = payload_from(words).unwrap();
    Ok((
        ReadFrame {
            channel: frame.channel,
            payload,
            records: frame.records,
        },
        next,
    ))
}
