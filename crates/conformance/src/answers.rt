// A case is answered by the library that has its operation, over memory that shows what was changed.
use crate::memory::Memory;
use cases::answer::{NoAnswer, Told};
use cases::line::Front;
use cases::operation::{OctetWriter, Operation, TapeReader};
use cases::{answer, lent, reading, reply, writing};
use frame_cases::{coding, walking};
use print::Printer;
use table_cases::case::Case;
use table_cases::parts::Parts;
use table_cases::{case, lending, table, value};

// Octets of a payload and of the frame around it, beside those of the case and its records, and more.
const FIXED: usize = 128;

// A case and a tape of so many words, if they are not too many.
fn with_tape(
    front: Front,
    parts: &mut Parts,
    words: Option<usize>,
) -> Option<(Case<'_>, &mut [u64])> {
    parts.case_with_tape(front, words?)
}

fn read_onto(printer: &mut Printer, reader: TapeReader, front: Front, parts: &mut Parts) {
    let octets = parts.case(front).field(0).len();
    let words = lending::lent_words(front.limit, octets, parts.tape.len());
    let Some((case, tape)) = with_tape(front, parts, words) else {
        return printer.put(b'?');
    };
    lent::fill_words(tape);
    match reader {
        TapeReader::Table(form) => table::answer(printer, form, case, tape),
        TapeReader::Payload(form) => payload_cases::reading::answer(printer, form, case, tape),
    }
}

// The limit is the number of records, all of them free; the first field, of two octets, the number of entries.
fn walk(printer: &mut Printer, front: Front, parts: &mut Parts, register: &mut [u64]) {
    let case = parts.case(front);
    let ([high, low], 0, Some(records)) = (case.field(0), case.at, case.limit) else {
        return printer.put(b'?');
    };
    let entries = u16::from_be_bytes([*high, *low]) as usize;
    let tape_words = lending::words_for(records, parts.tape.len());
    let register_words = walking::register_words(entries, register.len());
    let (Some((case, tape)), Some(of_register)) = (
        with_tape(front, parts, tape_words),
        register_words,
    ) else {
        return printer.put(b'?');
    };
    walking::answer(printer, case.field(1), tape, &mut register[..of_register]);
}

// The octets that a writer is lent: by its limit, or enough for what it writes of fields and records, but no more than there are.
fn space_for(case: Case, most: usize) -> usize {
    let needed = case
        .records
        .len()
        .saturating_mul(3)
        .saturating_add(case.pool.len())
        .saturating_add(FIXED)
        .saturating_add(case.at);
    case.limit.unwrap_or(needed.min(most))
}

// A frame takes no more records than it has octets.
fn relayed(front: Front, parts: &mut Parts, lent: &mut [u8]) -> Told {
    let octets = parts.case(front).field(0).len();
    let words = lending::lent_words(None, octets, parts.tape.len());
    let (case, tape) = with_tape(front, parts, words).ok_or(NoAnswer::NoCase)?;
    coding::relayed(case.field(0), case.at, tape, lent)
}

// Where it is written from, and what is answered.
fn written(writer: OctetWriter, front: Front, parts: &mut Parts, lent: &mut [u8]) -> (usize, Told) {
    let case = parts.case(front);
    let at = case.at;
    match writer {
        OctetWriter::Field(writer) => (at, writing::write(writer, case.field(0), lent, at)),
        OctetWriter::Encode => (at, coding::encoded(case, lent)),
        OctetWriter::ProtocolHeader => (at, coding::protocol_header(lent, at)),
        OctetWriter::Table(form) => (at, table::write(form, case, lent)),
        OctetWriter::Payload(form) => (at, payload_cases::writing::write(form, case, lent)),
        // A frame that is read at a position is written from the first octet on.
        OctetWriter::RelayFrame => (0, relayed(front, parts, lent)),
    }
}

fn write_over(
    printer: &mut Printer,
    writer: OctetWriter,
    front: Front,
    parts: &mut Parts,
    lent: &mut [u8],
) {
    let space = space_for(parts.case(front), lent.len());
    if lent.len() < space {
        return printer.put(b'?');
    }
    let part = &mut lent[..space];
    lent::fill(part);
    let (start, told) = written(writer, front, parts, part);
    answer::written(printer, told, start, part);
}

fn answer_case(
    printer: &mut Printer,
    front: Front,
    parts: &mut Parts,
    lent: &mut [u8],
    register: &mut [u64],
) {
    let case = parts.case(front);
    let s = case.field(0);
    match front.operation {
        Operation::Read(reader) => answer::shown(printer, reading::read(reader, s, case.at), s),
        Operation::Decode => answer::shown(printer, coding::decoded(s, case.at), s),
        Operation::ReadReply(reader) => answer::shown(printer, reply::read(reader, s, case.at), s),
        Operation::ReadTape(reader) => read_onto(printer, reader, front, parts),
        Operation::Walk => walk(printer, front, parts, register),
        Operation::RecordValue => value::show(printer, value::told(case.records), case.pool),
        Operation::RecordSeconds => {
            value::show(printer, value::told_in_seconds(case.records), case.pool)
        }
        Operation::Write(writer) => write_over(printer, writer, front, parts, lent),
    }
}

// The answer to a case, `?` for a line that is none.
pub(crate) fn answer(printer: &mut Printer, text: &[u8], memory: &mut Memory) {
    let Memory {
        parts,
        lent,
        register,
    } = memory;
    match case::case_of(text, parts) {
        None => printer.put(b'?'),
        Some(front) => answer_case(printer, front, parts, lent, register),
    }
}
