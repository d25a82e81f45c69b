// A reader: lent octets and the position in them together (document 01, "types.rs: octets and strings"). A position past the end is
// no fault: nothing is left there.
#![tactic(auto)]

ghost use Rattle.std.specs.Prelude.{◌≡◌, ◌-◌, length};
ghost use Rattle.types.specs.Octets.{uint_at};
ghost use Rattle.types.specs.Strings.{short_str_at};
ghost use Rattle.types.specs.AnswerOf.{answer_of, or_refusal};
ghost use Rattle.tables.specs.Letters.{errata};
ghost use Rattle.tables.specs.Tape.{read_table};
ghost use Rattle.table_reader.specs.AnswerOf.{count_alone};
ghost use Rattle.reader.specs.Reading.{taken, result_of, reading, reading_onto};

use table_reader::read_field_table;
use types::{Cursor, Read, Span, WireError};

#[derive(Clone, Copy)]
pub struct Reader<'a> {
    buf: &'a [u8],
    pos: usize,
}

impl<'a> Reader<'a> {
    pub fn new(buf: &'a [u8]) -> Reader<'a>
        ensures { result ≡ record { buf = buf.entry; pos = 0 } }
    {
        Reader { buf, pos: 0 }
    }

    pub fn position(self) -> usize
        ensures { result ≡ self.entry.pos }
    {
        self.pos
    }

    // How many octets are left: none where the position is past the end.
    pub fn remaining(self) -> usize
        ensures { result ≡ length self.entry.buf.now - self.entry.pos }
    {
        self.buf.len().saturating_sub(self.pos)
    }

    // Where the reader is.
    fn at(self) -> Cursor
        ensures { result.at ≡ self.entry.pos }
    {
        Cursor { at: self.pos }
    }

    // A reader moves past what it has read, and stays where it is after a refusal.
    fn advance<T>(&mut self, answer: Read<T>) -> Result<T, WireError>
        ensures { taken (or_refusal (λ v. v) result) self.new ≡ reading (answer_of answer) self.old }
    {
        let (value, next) = answer?;
        self.pos = next.at;
        Ok(value)
    }

    pub fn u16(&mut self) -> Result<u16, WireError>
        ensures { taken (or_refusal (λ n. n) result) self.new ≡ reading (uint_at 2 self.old.buf.now self.old.pos) self.old }
    {
        self.advance(self.at().u16(self.buf))
    }

    pub fn short_str(&mut self) -> Result<Span, WireError>
        ensures { taken (or_refusal (λ v. v) result) self.new ≡ reading (short_str_at self.old.buf.now self.old.pos) self.old }
    {
        self.advance(self.at().short_str(self.buf))
    }

    // Reads a table onto the records of the tape behind the used ones, which are lent apart as in table_reader: how many it has filled.
    pub fn field_table(&mut self, tape: &mut [u64], used: usize) -> Result<usize, WireError>
        ensures { taken (or_refusal count_alone result) (self.new, tape.new) ≡ reading_onto (read_table errata self.old.buf.now self.old.pos used tape.old) self.old }
    {
        self.advance(read_field_table(self.buf, self.at(), tape, used))
    }
}

// The short string at the start, for callers that hold no reader.
pub fn first_short_str(s: &[u8]) -> Result<Span, WireError>
    ensures { or_refusal (λ v. v) result ≡ result_of (short_str_at s.now 0) }
{
    Reader::new(s).short_str()
}
