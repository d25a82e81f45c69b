// Commands and content headers. A refusal leaves the tape, and the output, as they were.
ghost use Rattle.std.specs.Prelude.{◌≡◌};
ghost use Rattle.tables.specs.Letters.{errata};
ghost use Rattle.method.specs.Reading.{read_header};
ghost use Rattle.method_writer.specs.Calls.{write_call};
ghost use Rattle.amqp_ffi.specs.Reply.{reply_with, reply_with_of, header, nothing};

use crate::reply::{give, refuse, reply_written};
use method_reader::headers::read_header_words;
use method_words::Call;
use method_writer::commands::write_call;
use types::Cursor;

// Class, body size, and how many tape records its headers have.
#[unsafe(no_mangle)]
pub extern "C" fn amqp_content_header(
    s: &[u8],
    at: usize,
    tape: &mut [u64],
    used: usize,
    words: &mut [u64; 4],
) -> u32
    ensures { reply_with result words.new tape.new ≡ reply_with_of header (read_header errata s.now at used tape.old) }
{
    let mut properties = [0u64; 22];
    match read_header_words(s, Cursor { at }, tape, used, &mut properties) {
        Err(e) => refuse(words, e),
        Ok((header, next)) => {
            give(
                words,
                next.at,
                [header.class as u64, header.body_size, header.records as u64],
            )
        }
    }
}

// The command of a class and method, from the words of its arguments (specs/Words.antt of method).
#[unsafe(no_mangle)]
pub extern "C" fn amqp_write_command(
    out: &mut [u8],
    at: usize,
    class: u16,
    method: u16,
    arguments: &[u64; 8],
    pool: &[u8],
    tape: &[u64],
    words: &mut [u64; 4],
) -> u32
    ensures { reply_with result words.new out.new ≡ reply_with_of nothing (write_call errata pool.now tape.now (record { class = class; method = method; words = arguments.now }) at out.old) }
{
    let call = Call {
        class,
        method,
        words: *arguments,
    };
    reply_written(words, write_call(out, at, call, pool, tape))
}
