// The walk: the octets consumed, the number of frames and what stopped it; then the entries of the register and the records of the tape.
ghost use Rattle.std.specs.Prelude.{◌≤◌, IfSome};

use cases::answer::{and_joined, and_number};
use cases::{answer, lent};
use frame_reader::Walked;
use frame_reader::walk::{ENTRY_WORDS, walk};
use print::Printer;
use table_cases::{lending, record};
use tables::tape::{RECORD_WORDS, records_in};
use types::WireError;

// Words behind the last entry of a register, which are no entry.
const LOOSE: usize = 2;

// How many words a register of `all` words can lend for so many entries, if those are not too many.
pub fn register_words(entries: usize, all: usize) -> Option<usize>
    ensures { IfSome result (λ n. n ≤ all) }
{
    lending::room_for(entries, ENTRY_WORDS, LOOSE, all)
}

// How many tape records the last of so many entries tells of: those before its frame and its own. None where there is no such entry or
// number.
fn records_told(register: &[u64], frames: usize) -> Option<usize> {
    let Some(last) = frames.checked_sub(1) else {
        return Some(0);
    };
    match register.get(last.checked_mul(ENTRY_WORDS)?..)? {
        [_, before, own, ..] => Some(before.checked_add(*own)? as usize),
        _ => None,
    }
}

// Whether nothing is changed behind so many entries of the register and records of the tape.
fn kept(tape: &[u64], records: usize, register: &[u64], frames: usize) -> bool {
    records <= records_in(tape)
        && frames <= register.len() / ENTRY_WORDS
        && lent::kept_words(tape, records * RECORD_WORDS)
        && lent::kept_words(register, frames * ENTRY_WORDS)
}

// The words of each entry, behind a space.
fn entries(printer: &mut Printer, register: &[u64], count: usize) {
    for entry in register.chunks_exact(ENTRY_WORDS).take(count) {
        and_joined(printer, b' ', entry);
    }
}

fn records(printer: &mut Printer, tape: &[u64], count: usize) {
    for record in tape.chunks_exact(RECORD_WORDS).take(count) {
        record::and_words(printer, record);
    }
}

// `-` for nothing, or a refusal's number and values, joined by `,`.
fn and_stop(printer: &mut Printer, stop: Option<WireError>) {
    printer.put(b' ');
    match stop {
        None => printer.put(b'-'),
        Some(e) => answer::refusal(printer, b',', e),
    }
}

fn show(printer: &mut Printer, w: Walked, tape: &[u64], count: usize, register: &[u64]) {
    printer.put(b'=');
    and_number(printer, b' ', w.consumed as u64);
    and_number(printer, b' ', w.frames as u64);
    and_stop(printer, w.refusal);
    entries(printer, register, w.frames);
    records(printer, tape, count);
}

// The walk over `s`, if nothing else of tape and register has changed.
pub fn answer(printer: &mut Printer, s: &[u8], tape: &mut [u64], register: &mut [u64]) {
    lent::fill_words(tape);
    lent::fill_words(register);
    let w = walk(s, tape, register);
    match records_told(register, w.frames) {
        Some(count) if kept(tape, count, register, w.frames) => {
            show(printer, w, tape, count, register)
        }
        _ => printer.text(b"# changed"),
    }
}
