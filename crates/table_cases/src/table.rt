// The readers and the writers of tables and lone values.
use crate::case::Case;
use crate::lending::{USED, kept};
use cases::answer;
use cases::answer::{Told, Values};
use cases::operation::TableForm;
use print::Printer;
use table_reader::{read_field_table, read_field_value};
use table_writer::{write_field_table, write_field_value};
use types::{Cursor, Read};

// The number of records, and the position behind them.
fn read(form: TableForm, s: &[u8], at: usize, tape: &mut [u64]) -> Read<usize> {
    let start = Cursor { at };
    match form {
        TableForm::Table => read_field_table(s, start, tape, USED),
        TableForm::Value => read_field_value(s, start, tape, USED),
    }
}

fn told(read: Read<usize>) -> Told {
    let (count, next) = read?;
    answer::told(next.at, Values::number(count as u64))
}

// What is read of a case, onto a tape that `fill_words` has filled; if nothing else of the tape has changed.
pub fn answer(printer: &mut Printer, form: TableForm, case: Case, tape: &mut [u64]) {
    let s = case.field(0);
    let read = read(form, s, case.at, tape);
    let count = read.map_or(0, |(count, _)| count);
    if !kept(tape, count) {
        return printer.text(b"# changed");
    }
    answer::shown(printer, told(read), s);
    case.records_on(tape).show(printer, count);
}

pub fn write(form: TableForm, case: Case, lent: &mut [u8]) -> Told {
    answer::of_written(match form {
        TableForm::Table => write_field_table(lent, case.at, case.pool, case.records),
        TableForm::Value => write_field_value(lent, case.at, case.pool, case.records),
    })
}
