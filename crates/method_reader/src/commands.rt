// The command reader: class and method, the fields of their layout, no octet more.
ghost use Rattle.std.specs.Prelude.{◌≡◌, true, map};
ghost use Rattle.types.specs.Memory.{outcome};
ghost use Rattle.tables.specs.Letters.{errata};
ghost use Rattle.method.specs.Commands.{known, fields_of};
ghost use Rattle.method.specs.Reading.{read_command};
ghost use Rattle.method.specs.Layout.{field_of};
ghost use Rattle.method_words.specs.Words.{call_of};
ghost use Rattle.method_words.specs.InWords.{words_outcome, in_words};
ghost use Rattle.method_reader.specs.Fields.{read_arguments};
ghost use Rattle.method_reader.specs.AnswerOf.{answer_of_call, answer_of_command};

use crate::CallRead;
use crate::fields::{fill_table, read_fields};
use method::Command;
use method::layout::{Field, layout_of};
use method::present::command_fields;
use method_words::commands::known_command;
use table_reader::room;
use tables::WithCount;
use types::{Cursor, Read, WireError};

// What follows a class and method that are known, up to the end of the octets.
fn read_arguments(
    class: u16,
    method: u16,
    layout: &[Field],
    s: &[u8],
    at: Cursor,
    tape: &mut [u64],
    used: usize,
    words: &mut [u64; 8],
) -> Read<CallRead>
    requires { (known class method ≡ true) × (map field_of layout.now ≡ fields_of class method) }
    ensures { words_outcome (answer_of_call result words.new) words.new tape.new ≡ in_words call_of (λ x. x.words) words.old (read_arguments errata class method s.now at.at used tape.old) }
{
    let mut arguments = [0u64; 8];
    let fields = command_fields(layout);
    let (table, next) = read_fields(fields, s, at, room(tape, used), &mut arguments)?;
    if next.at < s.len() {
        return Err(WireError::NotWritten(next.at));
    }
    let records = fill_table(s, table, tape, used);
    *words = arguments;
    Ok((
        CallRead {
            class,
            method,
            records,
        },
        next,
    ))
}

// Reads a command in words, which ends with the octets, and fills the records behind the used ones if it has a table.
pub fn read_call(
    s: &[u8],
    at: Cursor,
    tape: &mut [u64],
    used: usize,
    words: &mut [u64; 8],
) -> Read<CallRead>
    ensures { words_outcome (answer_of_call result words.new) words.new tape.new ≡ in_words call_of (λ x. x.words) words.old (read_command errata s.now at.at used tape.old) }
{
    let (class, after) = at.u16(s)?;
    let (method, next) = after.u16(s)?;
    let Some(layout) = layout_of(class, method) else {
        return Err(WireError::UnknownMethod(class, method));
    };
    read_arguments(class, method, layout, s, next, tape, used, words)
}

// Reads a command that ends with the octets, and fills the records behind the used ones if it has a table.
pub fn read_command(s: &[u8], at: Cursor, tape: &mut [u64], used: usize) -> Read<WithCount<Command>>
    ensures { outcome (answer_of_command result) tape.new ≡ read_command errata s.now at.at used tape.old }
{
    let mut words = [0u64; 8];
    let (call, next) = read_call(s, at, tape, used, &mut words)?;
    // read_call refuses what is unknown.
    let value = known_command(call.class, call.method, words).unwrap();
    Ok((
        WithCount {
            value,
            count: call.records,
        },
        next,
    ))
}
