// The second pass: the records of a table or a value that was judged, so that nothing is refused here. The tape and a record's number are
// lent apart: a container's own record comes before those beneath it, and is filled after them. `levels` and `named` are no struct, as in
// the first pass.
ghost use Rattle.std.specs.Prelude.{◌≡◌, true, ◌+◌, ◌*◌, ◌≤◌, length};
ghost use Rattle.types.specs.Answer.{given};
ghost use Rattle.types.specs.Memory.{splice};
ghost use Rattle.tables.specs.Letters.{errata};
ghost use Rattle.tables.specs.Reading.{name_at, entries_at, container_at, value_at};
ghost use Rattle.tables.specs.Tape.{tape_records, flatten};
ghost use Rattle.tables.specs.AnswerOf.{record_of};
ghost use Rattle.table_reader.specs.Filling.{Given, Fits, Stored, records_of};

use crate::leaf::leaf_at;
use tables::letters::kind_of;
use tables::tape::RECORD_WORDS;
use tables::{Kind, NO_NAME, PayloadWords, TapeRecord};
use types::{Cursor, Span};

// The next record, and the next position.
type Filled = (usize, Cursor);

// Writes record k of the tape, word by word: with copy_from_slice of an array a table of 1,000 values took 207,997 instructions in place
// of 183,663. With an array stored by `first_chunk_mut` the proof did not close: no clause told how the tape ends that was lent.
// The words of the name are stored as they are: `to_words` would make an array, to be taken apart in the next line.
fn put_record(tape: &mut [u64], k: usize, r: TapeRecord)
    requires { (k + 1) * tape_records.size ≤ length tape.old }
    ensures { tape.new ≡ splice (k * tape_records.size) (tape_records.words (record_of r)) tape.old }
{
    let i = k * RECORD_WORDS;
    tape[i] = r.letter;
    tape[i + 1] = r.name.start as u64;
    tape[i + 2] = r.name.len as u64;
    tape[i + 3] = r.payload.first;
    tape[i + 4] = r.payload.second;
    tape[i + 5] = r.beneath as u64;
}

// The name of a table's entry; none in an array. It was judged, so its octets are not looked at again.
#[tactic(auto, using(crate::proofs::FillLaws::name_there), unfolding(tables::specs::Reading::name_at))]
fn name_at(s: &[u8], at: Cursor, named: bool) -> (Span, Cursor)
    requires { Given (name_at named s.now at.at) }
    ensures { name_at named s.now at.at ≡ given result.0 result.1.at }
{
    if !named {
        return (NO_NAME, at);
    }
    let len = s[at.at] as usize;
    let start = at.at + 1;
    (Span { start, len }, Cursor { at: start + len })
}

// The records of a value: its own, record k, and those beneath it.
#[cycle(fill_entries_fill_value)]
fn fill_value(s: &[u8], at: Cursor, levels: usize, name: Span, tape: &mut [u64], k: usize) -> Filled
    requires { Fits (records_of name) (value_at errata levels s.now at.at (length s.now)) k tape.old }
    ensures { Stored (records_of name) (value_at errata levels s.now at.at (length s.now)) k tape.old tape.new result }
{
    let octet = s[at.at];
    let letter = octet as u64;
    let next = Cursor { at: at.at + 1 };
    let kind = kind_of(octet).unwrap();
    let Kind::Container(named) = kind else {
        let (payload, after) = leaf_at(s, next, kind).unwrap();
        put_record(
            tape,
            k,
            TapeRecord {
                letter,
                name,
                payload,
                beneath: 0,
            },
        );
        return (k + 1, after);
    };
    let (body, _) = next.long_str(s).unwrap();
    let first = k + 1;
    let (end, after) = fill_entries(s, body, levels - 1, named, tape, first);
    let payload = PayloadWords::number(0);
    put_record(
        tape,
        k,
        TapeRecord {
            letter,
            name,
            payload,
            beneath: end - first,
        },
    );
    (end, after)
}

// The records of entries, from record k on.
#[cycle(fill_entries_fill_value)]
pub(crate) fn fill_entries(
    s: &[u8],
    body: Span,
    levels: usize,
    named: bool,
    tape: &mut [u64],
    k: usize,
) -> Filled
    requires { (body.start + body.len ≤ length s.now) × Fits flatten (entries_at (value_at errata levels) named s.now body.start (body.start + body.len) (length s.now)) k tape.old }
    ensures { Stored flatten (entries_at (value_at errata levels) named s.now body.start (body.start + body.len) (length s.now)) k tape.old tape.new result }
{
    let end = body.start + body.len;
    let mut here = Cursor { at: body.start };
    let mut record = k;
    // No iterator: what is read tells how far it moves.
    while here.at < end {
        let (name, next) = name_at(s, here, named);
        (record, here) = fill_value(s, next, levels, name, tape, record);
    }
    (record, here)
}

// The records of the outermost table, from record k on.
pub(crate) fn fill_table(s: &[u8], at: Cursor, levels: usize, tape: &mut [u64], k: usize) -> Filled
    requires { Fits flatten (container_at (value_at errata levels) true s.now at.at (length s.now)) k tape.old }
    ensures { Stored flatten (container_at (value_at errata levels) true s.now at.at (length s.now)) k tape.old tape.new result }
{
    let (body, _) = at.long_str(s).unwrap();
    fill_entries(s, body, levels, true, tape, k)
}
