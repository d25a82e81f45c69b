// The walk: the reading step repeated from octet 0. A lent register has three words for each frame that was read: its first octet,
// the tape records used before it, and those of its own.
ghost use Rattle.std.specs.Prelude.{◌≡◌, ◌+◌, ◌≤◌, length};
ghost use Rattle.types.specs.Memory.{outcome};
ghost use Rattle.tables.specs.Letters.{errata};
ghost use Rattle.tables.specs.Tape.{room_of, fill_tape, records_only};
ghost use Rattle.table_reader.specs.AnswerOf.{answer_of_records};
ghost use Rattle.frame.specs.Step.{frame_with_payload_at};
ghost use Rattle.frame.specs.Walk.{walk};
ghost use Rattle.frame.specs.AnswerOf.{frame_of};
ghost use Rattle.frame_reader.specs.AnswerOf.{walk_outcome_of};

use crate::Walked;
use crate::decode::decode;
use crate::fixed_size::fixed_size_frame;
use frame::{Frame, FrameType};
use method_reader::commands::read_call;
use method_reader::headers::read_header_words;
use types::{Cursor, Read, Span, WireError};

// The words of the register that a frame takes.
pub const ENTRY_WORDS: usize = 3;

// The payload of a frame that was decoded: how many records it has filled. `read_payload` tells it too, and was tried here: putting the
// words together as well took 489 instructions a frame of a recorded client in place of 434.
fn payload_records(
    s: &[u8],
    frame: Frame,
    next: Cursor,
    tape: &mut [u64],
    used: usize,
) -> Read<usize>
    requires { frame.payload.start + frame.payload.len ≤ length s.now }
    ensures { outcome (answer_of_records result) tape.new ≡ records_only (fill_tape used tape.old (frame_with_payload_at errata s.now (frame_of frame) next.at (room_of used tape.old))) }
{
    let Span { start, len } = frame.payload;
    let at = Cursor { at: start };
    let part = &s[..start + len];
    match frame.frame_type {
        FrameType::Method => {
            let mut words = [0u64; 8];
            let (call, _) = read_call(part, at, tape, used, &mut words)?;
            Ok((call.records, next))
        }
        FrameType::Header => {
            let mut words = [0u64; 22];
            let (header, _) = read_header_words(part, at, tape, used, &mut words)?;
            Ok((header.records, next))
        }
        FrameType::Body => Ok((0, next)),
        FrameType::Heartbeat => {
            if 0 < len {
                return Err(WireError::NotWritten(start));
            }
            Ok((0, next))
        }
    }
}

// How far a walk is: the place of the next frame, and how many tape records are used and frames read.
#[derive(Clone, Copy)]
struct Progress {
    at: usize,
    used: usize,
    frames: usize,
}

impl Progress {
    ghost use Rattle.std.specs.Prelude.{◌≡◌, [], ◌∷◌, ◌+◌, ◌*◌, ◌≤◌, length};
    ghost use Rattle.types.specs.Memory.{splice};
    ghost use Rattle.tables.specs.Letters.{errata};
    ghost use Rattle.tables.specs.Tape.{room_of};
    ghost use Rattle.table_reader.specs.AnswerOf.{answer_of_records};
    ghost use Rattle.frame.specs.Step.{walk_step_at};
    ghost use Rattle.frame_reader.specs.Walking.{step_outcome, slots_of, fill_both};

    // The register's entry of the next frame, which has so many records of its own.
    fn put_entry(self, register: &mut [u64], own: usize)
        requires { (self.frames + 1) * 3 ≤ length register.old }
        ensures { register.new ≡ splice (self.frames * 3) (self.at ∷ self.used ∷ own ∷ []) register.old }
    {
        let start = self.frames * ENTRY_WORDS;
        register[start..start + ENTRY_WORDS].copy_from_slice(&[
            self.at as u64,
            self.used as u64,
            own as u64,
        ]);
    }

    // A frame of any kind. The register is judged when the frame is decoded, before its payload.
    fn any_step(self, s: &[u8], tape: &mut [u64], register: &mut [u64]) -> Read<usize>
        ensures { step_outcome (answer_of_records result) tape.new register.new ≡ fill_both self.at self.used self.frames tape.old register.old (walk_step_at errata s.now self.at (slots_of self.frames register.old) (room_of self.used tape.old)) }
    {
        let (frame, next) = decode(s, Cursor { at: self.at })?;
        if register.len() / ENTRY_WORDS <= self.frames {
            return Err(WireError::TapeFull);
        }
        let (records, after) = payload_records(s, frame, next, tape, self.used)?;
        self.put_entry(register, records);
        Ok((records, after))
    }

    // A step of the walk, which tries first whether the frame is of a fixed size.
    fn step(self, s: &[u8], tape: &mut [u64], register: &mut [u64]) -> Read<usize>
        requires { self.at ≤ length s.now }
        ensures { step_outcome (answer_of_records result) tape.new register.new ≡ fill_both self.at self.used self.frames tape.old register.old (walk_step_at errata s.now self.at (slots_of self.frames register.old) (room_of self.used tape.old)) }
    {
        if self.frames < register.len() / ENTRY_WORDS {
            if let Some(next) = fixed_size_frame(s, self.at) {
                self.put_entry(register, 0);
                return Ok((0, Cursor { at: next }));
            }
        }
        self.any_step(s, tape, register)
    }

    fn ended(self, refusal: Option<WireError>) -> Walked
        ensures { result ≡ record { frames = self.frames; consumed = self.at; refusal = refusal } }
    {
        Walked {
            frames: self.frames,
            consumed: self.at,
            refusal,
        }
    }
}

// Reads frames until no octet is left or a step refuses. The refused frame adds nothing to register and tape.
pub fn walk(s: &[u8], tape: &mut [u64], register: &mut [u64]) -> Walked
    ensures { walk_outcome_of result tape.new register.new ≡ walk errata s.now tape.old register.old }
{
    let mut so_far = Progress {
        at: 0,
        used: 0,
        frames: 0,
    };
    // No iterator: each step tells how far it moves and fills what is lent, and the first that refuses ends the walk.
    while so_far.at < s.len() {
        match so_far.step(s, tape, register) {
            Err(e) => return so_far.ended(Some(e)),
            Ok((records, next)) => {
                so_far = Progress {
                    at: next.at,
                    used: so_far.used + records,
                    frames: so_far.frames + 1,
                };
            }
        }
    }
    so_far.ended(None)
}
