// Writers at a place of the output: the position behind what was written. A refusal leaves the output as it was. One function for each
// width, since C calls each by its name.
ghost use Rattle.std.specs.Prelude.{◌≡◌};
ghost use Rattle.writers.specs.Writers.{write_uint, write_short_str, write_long_str};
ghost use Rattle.amqp_ffi.specs.Reply.{reply_with, reply_with_of, nothing};

use crate::reply::reply_written;

#[unsafe(no_mangle)]
pub extern "C" fn amqp_write_u32(out: &mut [u8], at: usize, n: u32, words: &mut [u64; 4]) -> u32
    ensures { reply_with result words.new out.new ≡ reply_with_of nothing (write_uint 4 n at out.old) }
{
    reply_written(words, writers::write_u32(out, at, n))
}

#[unsafe(no_mangle)]
pub extern "C" fn amqp_write_u64(out: &mut [u8], at: usize, n: u64, words: &mut [u64; 4]) -> u32
    ensures { reply_with result words.new out.new ≡ reply_with_of nothing (write_uint 8 n at out.old) }
{
    reply_written(words, writers::write_u64(out, at, n))
}

#[unsafe(no_mangle)]
pub extern "C" fn amqp_write_short_str(
    out: &mut [u8],
    at: usize,
    s: &[u8],
    words: &mut [u64; 4],
) -> u32
    ensures { reply_with result words.new out.new ≡ reply_with_of nothing (write_short_str s.now at out.old) }
{
    reply_written(words, writers::write_short_str(out, at, s))
}

#[unsafe(no_mangle)]
pub extern "C" fn amqp_write_long_str(
    out: &mut [u8],
    at: usize,
    s: &[u8],
    words: &mut [u64; 4],
) -> u32
    ensures { reply_with result words.new out.new ≡ reply_with_of nothing (write_long_str s.now at out.old) }
{
    reply_written(words, writers::write_long_str(out, at, s))
}
