// Frames: the protocol header, the frame types, a frame's place in octets, and what its payload holds.
#![tactic(auto)]

ghost use Rattle.std.specs.Prelude.{◌≡◌};
ghost use Rattle.frame.specs.Frame.{known_type};
ghost use Rattle.frame.specs.Writing.{type_of};
ghost use Rattle.frame.specs.AnswerOf.{type_octet, type_of_known, payload_of};

use method::{Command, ContentHeader};
use types::Span;

// What a client sends first.
pub const PROTOCOL_HEADER: [u8; 8] = *b"AMQP\x00\x00\x09\x01";

pub const FRAME_END: u8 = 0xCE;

// Each with its octet on the wire. No Display: the dissector alone prints one, under a name of its own, and Debug has the Rust's.
#[derive(Clone, Copy, Debug, PartialEq, Eq)]
pub enum FrameType {
    Method = 1,
    Header = 2,
    Body = 3,
    Heartbeat = 8,
}

impl FrameType {
    // None for the octet of no frame type. Named as the Rust's, so no TryFrom stands beside it.
    pub fn from_u8(v: u8) -> Option<FrameType>
        ensures { type_of_known result ≡ known_type v }
    {
        match v {
            1 => Some(FrameType::Method),
            2 => Some(FrameType::Header),
            3 => Some(FrameType::Body),
            8 => Some(FrameType::Heartbeat),
            _ => None,
        }
    }

    // No From: `frame_type.octet()` tells what it is where it is called, which `u8::from(frame_type)` would not.
    pub fn octet(self) -> u8
        ensures { result ≡ type_octet self }
    {
        self as u8
    }
}

// A frame in lent octets: its payload is a span of them.
#[derive(Clone, Copy, Debug, PartialEq, Eq)]
pub struct Frame {
    pub frame_type: FrameType,
    pub channel: u16,
    pub payload: Span,
}

// What a payload holds. The reading step returns it and the frame writer takes it: strings and bodies are spans of a lent pool,
// which is the input when reading, and a table is records of a lent tape.
#[derive(Clone, Copy, Debug, PartialEq, Eq)]
pub enum Payload {
    Command(Command),
    Header(ContentHeader),
    Body(Span),
    Heartbeat,
}

impl Payload {
    // No From, as of `octet`: one equation, under the name of what is asked.
    pub fn frame_type(self) -> FrameType
        ensures { type_octet result ≡ type_of (payload_of self) }
    {
        match self {
            Payload::Command(_) => FrameType::Method,
            Payload::Header(_) => FrameType::Header,
            Payload::Body(_) => FrameType::Body,
            Payload::Heartbeat => FrameType::Heartbeat,
        }
    }
}
