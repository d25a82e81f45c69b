// The command writer: class and method, then the fields of their layout. And the judgement alone.
ghost use Rattle.std.specs.Prelude.{◌≡◌, map, length, Some};
ghost use Rattle.types.specs.Memory.{outcome};
ghost use Rattle.types.specs.AnswerOf.{or_refusal};
ghost use Rattle.writers.specs.AnswerOf.{answer_of_written};
ghost use Rattle.tables.specs.Letters.{errata};
ghost use Rattle.table_writer.specs.Sizes.{sized};
ghost use Rattle.method.specs.Pooled.{command_refusal, pooled_command_meaning, write_command};
ghost use Rattle.method.specs.Writing.{command_octets};
ghost use Rattle.method.specs.Commands.{commands, fields_in};
ghost use Rattle.method.specs.Words.{command_from};
ghost use Rattle.method.specs.Layout.{field_of};
ghost use Rattle.method.specs.AnswerOf.{command_of};
ghost use Rattle.method_writer.specs.Calls.{write_call};

use crate::emit::emit_fields;
use crate::sizes::size_fields;
use method::Command;
use method::layout::{Field, layout_of};
use method::present::command_fields;
use method_words::Call;
use method_words::calls::call_of;
use types::WireError;
use writers::{Written, has_octets, write_u16};

// Judges a command as its writer does, but for the space: how many octets it has, or its refusal. Nothing is written.
pub fn judge_command(command: Command, pool: &[u8], tape: &[u64]) -> Result<usize, WireError>
    ensures { or_refusal (λ n. n) result ≡ sized (command_refusal errata pool.now tape.now (command_of command)) (length (command_octets errata (pooled_command_meaning errata pool.now tape.now (command_of command)))) }
{
    let call = call_of(command);
    let layout = layout_of(call.class, call.method).unwrap();
    let n = size_fields(command_fields(layout), &call.words, pool, tape)?;
    Ok(4 + n)
}

// Writes a command in words whose class and method are known, by its layout.
fn write_fields(
    out: &mut [u8],
    at: usize,
    call: Call,
    layout: &[Field],
    pool: &[u8],
    tape: &[u64],
) -> Written
    requires { Some (map field_of layout.now) ≡ fields_in commands call.class call.method }
    ensures { outcome (answer_of_written result) out.new ≡ write_command errata pool.now tape.now (command_from call.class call.method call.words) at out.old }
{
    let n = size_fields(command_fields(layout), &call.words, pool, tape)?;
    if !has_octets(out, at, 4 + n) {
        return Err(WireError::NoSpace);
    }
    let method = write_u16(out, at, call.class).unwrap();
    let start = write_u16(out, method, call.method).unwrap();
    emit_fields(out, start, command_fields(layout), &call.words, pool, tape);
    Ok(start + n)
}

// Writes a command in words, of which a number takes the low octets. Its strings are spans of the pool; a table in it is the tape;
// without one the tape is not read.
pub fn write_call(out: &mut [u8], at: usize, call: Call, pool: &[u8], tape: &[u64]) -> Written
    ensures { outcome (answer_of_written result) out.new ≡ write_call errata pool.now tape.now call at out.old }
{
    let Some(layout) = layout_of(call.class, call.method) else {
        return Err(WireError::UnknownMethod(call.class, call.method));
    };
    write_fields(out, at, call, layout, pool, tape)
}

// Writes a command whose strings are spans of the pool. A table in it is the tape; without one the tape is not read.
pub fn write_command(
    out: &mut [u8],
    at: usize,
    command: Command,
    pool: &[u8],
    tape: &[u64],
) -> Written
    ensures { outcome (answer_of_written result) out.new ≡ write_command errata pool.now tape.now (command_of command) at out.old }
{
    write_call(out, at, call_of(command), pool, tape)
}
