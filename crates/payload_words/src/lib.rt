// A frame's payload as 26 words of 64 bits, both ways: how it is lent by and to other languages. The first word is the frame type.
// A command has class, method and eight argument words behind it; a content header class, body size, a bit for each property, and
// 22 property words; a body its start and length; a heartbeat nothing. Words that are not used are 0.
#![tactic(auto)]

ghost use Rattle.std.specs.Prelude.{◌≡◌};
ghost use Rattle.method.specs.AnswerOf.{header_of};
ghost use Rattle.payload_words.specs.Words.{call_words, content_header_words, body_words, heartbeat_words, command_from, header_from, payload_from};
ghost use Rattle.types.specs.AnswerOf.{or_refusal};
ghost use Rattle.frame.specs.AnswerOf.{payload_of};

use frame::{FrameType, Payload};
use method::ContentHeader;
use method_words::commands::known_command;
use method_words::cut::{low_u8, low_u16};
use method_words::headers::header_of;
use method_words::{Call, HeaderWords};
use types::{Span, WireError};

// The first word, by the type of the frame.
const METHOD: u64 = FrameType::Method as u64;

const HEADER: u64 = FrameType::Header as u64;

const BODY: u64 = FrameType::Body as u64;

const HEARTBEAT: u64 = FrameType::Heartbeat as u64;

// The words of a command.
pub fn call_words(call: Call) -> [u64; 26]
    ensures { result ≡ call_words call }
{
    let mut words = [0u64; 26];
    words[0] = METHOD;
    words[1] = call.class as u64;
    words[2] = call.method as u64;
    words[3..11].copy_from_slice(&call.words);
    words
}

// The words of a content header.
pub fn content_header_words(header: HeaderWords) -> [u64; 26]
    ensures { result ≡ content_header_words header }
{
    let mut words = [0u64; 26];
    words[0] = HEADER;
    words[1] = header.class as u64;
    words[2] = header.body_size;
    words[3] = header.present as u64;
    words[4..26].copy_from_slice(&header.words);
    words
}

// The words of a body, which is a span of the octets.
pub fn body_words(body: Span) -> [u64; 26]
    ensures { result ≡ body_words body }
{
    let mut words = [0u64; 26];
    words[0] = BODY;
    words[1..3].copy_from_slice(&body.to_words());
    words
}

// The words of a heartbeat.
pub fn heartbeat_words() -> [u64; 26]
    ensures { result ≡ heartbeat_words }
{
    let mut words = [0u64; 26];
    words[0] = HEARTBEAT;
    words
}

// Class and method as they stand: more than 16 bits are no command's.
fn command_from(words: [u64; 26]) -> Result<Payload, WireError>
    ensures { or_refusal payload_of result ≡ command_from words }
{
    let unknown = WireError::UnknownMethod(low_u16(words[1]), low_u16(words[2]));
    let Ok(class) = u16::try_from(words[1]) else {
        return Err(unknown);
    };
    let Ok(method) = u16::try_from(words[2]) else {
        return Err(unknown);
    };
    let mut arguments = [0u64; 8];
    arguments.copy_from_slice(&words[3..11]);
    let command = known_command(class, method, arguments).ok_or(unknown)?;
    Ok(Payload::Command(command))
}

fn header_from(words: [u64; 26]) -> ContentHeader
    ensures { header_of result ≡ header_from words }
{
    let mut properties = [0u64; 22];
    properties.copy_from_slice(&words[4..26]);
    header_of(low_u16(words[1]), words[2], low_u16(words[3]), properties)
}

// The payload that words stand for. Numbers are cut to their width. C lends the words, so the type is a number, and any of 64 bits. No
// function makes words of a payload: readers make them of what they read, without one, and the test program alone would call it.
pub fn payload_from(words: [u64; 26]) -> Result<Payload, WireError>
    ensures { or_refusal payload_of result ≡ payload_from words }
{
    match words[0] {
        METHOD => command_from(words),
        HEADER => Ok(Payload::Header(header_from(words))),
        BODY => Ok(Payload::Body(Span::from_words([words[1], words[2]]))),
        HEARTBEAT => Ok(Payload::Heartbeat),
        other => Err(WireError::UnsupportedFieldType(low_u8(other))),
    }
}
