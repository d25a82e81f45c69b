// Readers of field tables and of lone values. Each reads twice: the first pass judges and writes nothing, so that a refusal leaves
// the tape as it was; the second fills the records. A tape and the number of its used records are lent apart, as C has them: after a
// refusal there is nothing to put back.
#![tactic(auto)]

ghost use Rattle.std.specs.Prelude.{◌≡◌};
ghost use Rattle.types.specs.Memory.{outcome};
ghost use Rattle.tables.specs.Letters.{errata};
ghost use Rattle.tables.specs.Reading.{table_at, lone_value_at};
ghost use Rattle.tables.specs.Tape.{room_of, read_table, read_lone_value};
ghost use Rattle.types.specs.Answer.{given};
ghost use Rattle.table_reader.specs.Counting.{count_records};
ghost use Rattle.table_reader.specs.Ending.{read_table_to};
ghost use Rattle.table_reader.specs.AnswerOf.{answer_of_records};

mod fill;
mod judge;
mod leaf;

use crate::fill::{fill_entries, fill_table};
use crate::judge::judge_entries;
use tables::LEVELS;
use tables::tape::records_in;
use types::{Cursor, Read};

// The records of a tape that are free behind the used ones.
pub fn room(tape: &[u64], used: usize) -> usize
    ensures { result ≡ room_of used tape.now }
{
    records_in(tape).saturating_sub(used)
}

// How many records a table would fill, of so many that are free. Nothing is written.
pub fn judge_field_table(s: &[u8], at: Cursor, room: usize) -> Read<usize>
    ensures { answer_of_records result ≡ count_records (table_at errata s.now at.at room) }
{
    let (body, _) = at.long_str(s)?;
    judge_entries(s, body, LEVELS, room, true)
}

// The same of a value that stands alone: the only entry of an array whose end is an octet on.
pub fn judge_field_value(s: &[u8], at: Cursor, room: usize) -> Read<usize>
    ensures { answer_of_records result ≡ count_records (lone_value_at errata s.now at.at room) }
{
    let (alone, _) = at.span(s, 1)?;
    judge_entries(s, alone, LEVELS, room, false)
}

// Fills the records of a table that was judged. Without any nothing is filled, wherever the used records end.
fn fill_counted(s: &[u8], at: Cursor, count: usize, next: Cursor, tape: &mut [u64], used: usize)
    requires { count_records (table_at errata s.now at.at (room_of used tape.old)) ≡ given (record { value = tt; count = count }) next.at }
    ensures { outcome (given (record { value = tt; count = count }) next.at) tape.new ≡ read_table errata s.now at.at used tape.old }
{
    if count != 0 {
        fill_table(s, at, LEVELS, tape, used);
    }
}

// Reads a table onto the records of the tape behind the used ones: how many it has filled.
pub fn read_field_table(s: &[u8], at: Cursor, tape: &mut [u64], used: usize) -> Read<usize>
    ensures { outcome (answer_of_records result) tape.new ≡ read_table errata s.now at.at used tape.old }
{
    let (count, next) = judge_field_table(s, at, room(tape, used))?;
    fill_counted(s, at, count, next, tape, used);
    Ok((count, next))
}

// The same, but a table that ends elsewhere than at `end` is not filled.
pub fn read_field_table_to(
    s: &[u8],
    at: Cursor,
    end: usize,
    tape: &mut [u64],
    used: usize,
) -> Read<usize>
    ensures { outcome (answer_of_records result) tape.new ≡ read_table_to errata s.now at.at end used tape.old }
{
    let (count, next) = judge_field_table(s, at, room(tape, used))?;
    if next.at == end {
        fill_counted(s, at, count, next, tape, used);
    }
    Ok((count, next))
}

// Reads a value that stands alone, in the same way.
pub fn read_field_value(s: &[u8], at: Cursor, tape: &mut [u64], used: usize) -> Read<usize>
    ensures { outcome (answer_of_records result) tape.new ≡ read_lone_value errata s.now at.at used tape.old }
{
    let (count, next) = judge_field_value(s, at, room(tape, used))?;
    let (alone, _) = at.span(s, 1).unwrap();
    fill_entries(s, alone, LEVELS, false, tape, used);
    Ok((count, next))
}
