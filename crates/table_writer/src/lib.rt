// Writers of field tables and of lone values from a tape over a pool of octets. Each judges every record in order, then the lengths,
// then the space, and only then writes, so that a refusal leaves the output as it was.
#![tactic(auto)]

ghost use Rattle.std.specs.Prelude.{◌≡◌, true};
ghost use Rattle.types.specs.Memory.{outcome};
ghost use Rattle.types.specs.AnswerOf.{or_refusal};
ghost use Rattle.writers.specs.AnswerOf.{answer_of_written};
ghost use Rattle.tables.specs.Letters.{errata};
ghost use Rattle.tables.specs.Writing.{judge_table, write_table, write_lone_value};
ghost use Rattle.table_writer.specs.Sizes.{sized, tape_size};

mod emit;
mod judge;

use crate::emit::{emit_number, emit_records};
use crate::judge::{judge_lone_value, judge_tape};
use tables::LEVELS;
use tables::tape::records_in;
use types::{Number, WireError};
use writers::{MAX_LENGTH, Written, has_octets};

// A tape, and the octets in which its spans stand. C lends them apart.
#[derive(Clone, Copy)]
struct Source<'a> {
    pool: &'a [u8],
    tape: &'a [u64],
}

// Judges the table that a tape holds, but for the length of its body: how many octets that has, or the first refusal. More than
// 0x2_0000_0000 octets count as that many. Nothing is written.
pub fn judge_field_table(pool: &[u8], tape: &[u64]) -> Result<usize, WireError>
    ensures { or_refusal (λ n. n) result ≡ sized (judge_table errata pool.now tape.now) (tape_size errata true pool.now tape.now) }
{
    judge_tape(Source { pool, tape }, true)
}

// Writes the table that a tape holds.
pub fn write_field_table(out: &mut [u8], at: usize, pool: &[u8], tape: &[u64]) -> Written
    ensures { outcome (answer_of_written result) out.new ≡ write_table errata pool.now tape.now at out.old }
{
    let size = judge_field_table(pool, tape)?;
    if MAX_LENGTH < size {
        return Err(WireError::TooLong);
    }
    if !has_octets(out, at, size + 4) {
        return Err(WireError::NoSpace);
    }
    let count = records_in(tape);
    let next = emit_records(Source { pool, tape }, 0, count, LEVELS, true, out, at + 4);
    emit_number(out, at, Number::U32, size as u64);
    Ok(next)
}

// Writes the value that a tape holds; its first record counts all others.
pub fn write_field_value(out: &mut [u8], at: usize, pool: &[u8], tape: &[u64]) -> Written
    ensures { outcome (answer_of_written result) out.new ≡ write_lone_value errata pool.now tape.now at out.old }
{
    let size = judge_lone_value(Source { pool, tape })?;
    if MAX_LENGTH + 5 < size {
        return Err(WireError::TooLong);
    }
    if !has_octets(out, at, size) {
        return Err(WireError::NoSpace);
    }
    let count = records_in(tape);
    Ok(emit_records(Source { pool, tape }, 0, count, LEVELS, false, out, at))
}
