// Frames of commands without strings: acknowledgements, by far the most frequent ones, and few others. Such a frame is known by its
// type, class and method, size, last octet and frame end, so the walk need not go field by field.
ghost use Rattle.std.specs.Prelude.{◌≡◌, ◌+◌, ◌≤◌, length, IfSome};
ghost use Rattle.types.specs.Octets.{number_at};
ghost use Rattle.frame_reader.specs.FixedSize.{SizeOf, FixedFrame};

use frame::{FRAME_END, FrameType};

// How many octets a payload has, and the greatest last octet that is accepted.
#[derive(Drop)]
struct FixedSize {
    len: usize,
    last: u8,
}

// The size of a command without strings by its class and method, as one number of four octets. They are read and matched together for
// speed: with a match on the pair, each read as a u16, the walk took 52 instructions an ack in place of 45.
#[tactic(auto, using(crate::specs::FixedSize::none, crate::specs::FixedSize::zero, crate::specs::FixedSize::flag), unfolding(method::specs::Commands::commands, method::specs::Commands::known, method::specs::Commands::fields_of))]
fn fixed_size_of(ids: u32) -> Option<FixedSize>
    ensures { SizeOf ids result }
{
    match ids {
        0x000A_001F => Some(FixedSize { len: 12, last: 255 }), // connection.tune-ok
        0x0014_000A => Some(FixedSize { len: 5, last: 0 }), // channel.open
        0x0014_0014 => Some(FixedSize { len: 5, last: 1 }), // channel.flow
        0x0014_0015 => Some(FixedSize { len: 5, last: 1 }), // channel.flow-ok
        0x0014_0029 => Some(FixedSize { len: 4, last: 255 }), // channel.close-ok
        0x003C_000A => Some(FixedSize { len: 11, last: 1 }), // basic.qos
        0x003C_0050 => Some(FixedSize { len: 13, last: 1 }), // basic.ack
        0x003C_005A => Some(FixedSize { len: 13, last: 1 }), // basic.reject
        0x003C_0078 => Some(FixedSize { len: 13, last: 3 }), // basic.nack
        0x0055_000A => Some(FixedSize { len: 5, last: 1 }), // confirm.select
        0x005A_000A => Some(FixedSize { len: 4, last: 255 }), // tx.select
        _ => None,
    }
}

// The number of four octets at a place where they are. By index, in one line: `first_chunk`, which types takes for its three widths, would be
// unwrapped, and need the law of four octets that is found alone so.
fn four_octets(s: &[u8], at: usize) -> u32
    requires { at + 4 ≤ length s.now }
    ensures { result ≡ number_at 4 s.now at }
{
    u32::from_be_bytes([s[at], s[at + 1], s[at + 2], s[at + 3]])
}

// The position behind the frame that stands at a position, if it is whole, has such a command and is accepted. Of any other the
// decoder and the readers decide.
pub(crate) fn fixed_size_frame(s: &[u8], at: usize) -> Option<usize>
    requires { at ≤ length s.now }
    ensures { IfSome result (FixedFrame s.now at) }
{
    let left = s.len() - at;
    if left < 12 {
        return None;
    }
    if s[at] != FrameType::Method as u8 {
        return None;
    }
    let size = fixed_size_of(four_octets(s, at + 7))?;
    let len = size.len;
    if four_octets(s, at + 3) as usize != len {
        return None;
    }
    if left - 8 < len {
        return None;
    }
    let end = at + 7 + len;
    if s[end] != FRAME_END {
        return None;
    }
    if size.last < s[end - 1] {
        return None;
    }
    Some(end + 1)
}
