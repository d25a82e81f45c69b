// Readers: the next position, then the number, or the start and length of a string's octets. One function for each width, since C calls
// each by its name.
ghost use Rattle.std.specs.Prelude.{◌≡◌};
ghost use Rattle.types.specs.Octets.{uint_at};
ghost use Rattle.types.specs.Strings.{short_str_at, long_str_at};
ghost use Rattle.amqp_ffi.specs.Reply.{reply, reply_of, number, span};

use crate::reply::{reply_number, reply_span};
use types::{Cursor, Number};

#[unsafe(no_mangle)]
pub extern "C" fn amqp_u8(s: &[u8], at: usize, words: &mut [u64; 4]) -> u32
    ensures { reply result words.new ≡ reply_of number (uint_at 1 s.now at) }
{
    reply_number(words, (Cursor { at }).number(s, Number::U8))
}

#[unsafe(no_mangle)]
pub extern "C" fn amqp_u16(s: &[u8], at: usize, words: &mut [u64; 4]) -> u32
    ensures { reply result words.new ≡ reply_of number (uint_at 2 s.now at) }
{
    reply_number(words, (Cursor { at }).number(s, Number::U16))
}

#[unsafe(no_mangle)]
pub extern "C" fn amqp_u32(s: &[u8], at: usize, words: &mut [u64; 4]) -> u32
    ensures { reply result words.new ≡ reply_of number (uint_at 4 s.now at) }
{
    reply_number(words, (Cursor { at }).number(s, Number::U32))
}

#[unsafe(no_mangle)]
pub extern "C" fn amqp_u64(s: &[u8], at: usize, words: &mut [u64; 4]) -> u32
    ensures { reply result words.new ≡ reply_of number (uint_at 8 s.now at) }
{
    reply_number(words, (Cursor { at }).number(s, Number::U64))
}

#[unsafe(no_mangle)]
pub extern "C" fn amqp_short_str(s: &[u8], at: usize, words: &mut [u64; 4]) -> u32
    ensures { reply result words.new ≡ reply_of span (short_str_at s.now at) }
{
    reply_span(words, (Cursor { at }).short_str(s))
}

#[unsafe(no_mangle)]
pub extern "C" fn amqp_long_str(s: &[u8], at: usize, words: &mut [u64; 4]) -> u32
    ensures { reply result words.new ≡ reply_of span (long_str_at s.now at) }
{
    reply_span(words, (Cursor { at }).long_str(s))
}
