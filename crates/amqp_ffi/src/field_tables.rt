// Readers and writers of field tables and lone values: the next position; of readers also how many tape records were filled. A
// refusal leaves the tape, and the output, as they were.
ghost use Rattle.std.specs.Prelude.{◌≡◌};
ghost use Rattle.tables.specs.Letters.{errata};
ghost use Rattle.tables.specs.Tape.{read_table, read_lone_value};
ghost use Rattle.tables.specs.Writing.{write_table, write_lone_value};
ghost use Rattle.amqp_ffi.specs.Reply.{reply_with, reply_with_of, records, nothing};

use crate::reply::{reply_records, reply_written};
use types::Cursor;

#[unsafe(no_mangle)]
pub extern "C" fn amqp_field_table(
    s: &[u8],
    at: usize,
    tape: &mut [u64],
    used: usize,
    words: &mut [u64; 4],
) -> u32
    ensures { reply_with result words.new tape.new ≡ reply_with_of records (read_table errata s.now at used tape.old) }
{
    reply_records(
        words,
        table_reader::read_field_table(s, Cursor { at }, tape, used),
    )
}

#[unsafe(no_mangle)]
pub extern "C" fn amqp_field_value(
    s: &[u8],
    at: usize,
    tape: &mut [u64],
    used: usize,
    words: &mut [u64; 4],
) -> u32
    ensures { reply_with result words.new tape.new ≡ reply_with_of records (read_lone_value errata s.now at used tape.old) }
{
    reply_records(
        words,
        table_reader::read_field_value(s, Cursor { at }, tape, used),
    )
}

#[unsafe(no_mangle)]
pub extern "C" fn amqp_write_field_table(
    out: &mut [u8],
    at: usize,
    pool: &[u8],
    tape: &[u64],
    words: &mut [u64; 4],
) -> u32
    ensures { reply_with result words.new out.new ≡ reply_with_of nothing (write_table errata pool.now tape.now at out.old) }
{
    reply_written(words, table_writer::write_field_table(out, at, pool, tape))
}

#[unsafe(no_mangle)]
pub extern "C" fn amqp_write_field_value(
    out: &mut [u8],
    at: usize,
    pool: &[u8],
    tape: &[u64],
    words: &mut [u64; 4],
) -> u32
    ensures { reply_with result words.new out.new ≡ reply_with_of nothing (write_lone_value errata pool.now tape.now at out.old) }
{
    reply_written(words, table_writer::write_field_value(out, at, pool, tape))
}
