// The readers of commands, content headers and frames. Each reads its declared type, and that is put into words.
use crate::fields::Words;
use crate::shown::and_payload;
use cases::answer;
use cases::answer::{NOTHING, NoAnswer, Values};
use cases::operation::PayloadForm;
use frame::Payload;
use frame_reader::step::read_frame;
use method_reader::commands::read_command;
use method_reader::headers::read_content_header;
use method_words::calls::call_of;
use method_words::properties::header_words;
use print::Printer;
use table_cases::case::Case;
use table_cases::lending::{USED, kept};
use table_cases::record::Records;
use types::{Cursor, WireError};

// What a reader answers: the payload, and of a frame its channel; its tape records; the position behind what was read.
#[derive(Clone, Copy)]
struct Reading {
    payload: Payload,
    channel: Option<u16>,
    records: usize,
    next: usize,
}

// The way back of `payload_words::payload_from`. Here alone a payload of any kind is put into words: the codec has one kind at hand.
fn words_of(payload: Payload) -> Words {
    match payload {
        Payload::Command(command) => payload_words::call_words(call_of(command)),
        Payload::Header(header) => payload_words::content_header_words(header_words(header)),
        Payload::Body(span) => payload_words::body_words(span),
        Payload::Heartbeat => payload_words::heartbeat_words(),
    }
}

// How many records a payload has: the headers of a content header alone are any.
fn records_of(payload: Payload) -> usize {
    match payload {
        Payload::Header(header) => header.properties.headers.unwrap_or(0),
        _ => 0,
    }
}

fn reading_of(channel: Option<u16>, payload: Payload, records: usize, next: Cursor) -> Reading {
    Reading {
        payload,
        channel,
        records,
        next: next.at,
    }
}

fn read(form: PayloadForm, s: &[u8], at: usize, tape: &mut [u64]) -> Result<Reading, WireError> {
    let start = Cursor { at };
    match form {
        PayloadForm::Command => {
            let (c, next) = read_command(s, start, tape, USED)?;
            Ok(reading_of(None, Payload::Command(c.value), c.count, next))
        }
        PayloadForm::ContentHeader => {
            let (h, next) = read_content_header(s, start, tape, USED)?;
            Ok(reading_of(None, Payload::Header(h.value), h.count, next))
        }
        PayloadForm::Frame => {
            let (f, next) = read_frame(s, start, tape, USED)?;
            Ok(reading_of(Some(f.channel), f.payload, f.records, next))
        }
    }
}

// Of a frame its type and channel, then the payload; if nothing else of the tape has changed: what is filled must be the records of the
// payload.
fn show(printer: &mut Printer, r: Reading, records: Records) {
    if records_of(r.payload) != r.records || !kept(records.tape, r.records) {
        return printer.text(b"# changed");
    }
    let words = words_of(r.payload);
    let values = match r.channel {
        Some(channel) => Values::numbers(words[0], channel as u64),
        None => NOTHING,
    };
    answer::shown(printer, answer::told(r.next, values), records.s);
    and_payload(printer, r.payload.frame_type(), &words, records);
}

// What is read of a case, onto a tape that `fill_words` has filled.
pub fn answer(printer: &mut Printer, form: PayloadForm, case: Case, tape: &mut [u64]) {
    let s = case.field(0);
    match read(form, s, case.at, tape) {
        Ok(reading) => show(printer, reading, case.records_on(tape)),
        Err(_) if !kept(tape, 0) => printer.text(b"# changed"),
        Err(e) => answer::shown(printer, Err(NoAnswer::Refused(e)), s),
    }
}
