// Readers of frames: the decoder, the reading step, and the walk over octets of any number of frames. A tape and the number of its records
// that are used are two parameters, since C lends them apart, and after a refusal there is nothing to put back.
#![tactic(auto)]

pub mod decode;
mod fixed_size;
pub mod step;
pub mod walk;
pub mod words;

use frame::Payload;
use types::WireError;

// Channel and payload of a frame that was read, and the number of its tape records.
#[derive(Clone, Copy)]
pub struct ReadFrame {
    pub channel: u16,
    pub payload: Payload,
    pub records: usize,
}

// A frame in words: its channel, and the number of its tape records. Its payload is in the words lent.
#[derive(Clone, Copy)]
pub struct ReadFrameWords {
    pub channel: u16,
    pub records: usize,
}

// What the walk always ends with: frames read, octets consumed, and the refusal that stopped it, if one did.
#[derive(Clone, Copy)]
pub struct Walked {
    pub frames: usize,
    pub consumed: usize,
    pub refusal: Option<WireError>,
}
