// Lines of cases. One that is empty or begins with `#` is passed over. A case alone is answered. Where a tab and an answer stand behind a
// case, its own answer is compared with that: nothing is printed of a right one, and both of a wrong one; a second tab and a comment
// may follow.
ghost use Rattle.std.specs.Prelude.{◌≤◌, length};

use crate::answers::answer;
use crate::memory::Memory;
use crate::text::{move_to_front, read_full};
use print::Printer;
use std::fs;
use std::io::Read;

// What stands before an answer that is compared.
const WRONG: [u8; 7] = *b"wrong: ";

// The cases that had an answer, and how many of them were wrong.
#[derive(Drop)]
pub(crate) struct Trial<'a> {
    rt: HostRuntime,
    printer: Printer<'a>,
    memory: Memory,
    cases: u64,
    wrong: u64,
}

impl<'a> Trial<'a> {
    pub(crate) fn new(rt: HostRuntime, printer: Printer<'a>, memory: Memory) -> Trial<'a> {
        Trial {
            rt,
            printer,
            memory,
            cases: 0,
            wrong: 0,
        }
    }

    // The answer to a case beside what stands behind the tab of its line. Of one that the output has no room for, what is compared is what
    // its end has behind so many octets.
    fn judge(&mut self, line: &[u8], case: &[u8], told: &[u8]) {
        self.cases = self.cases.wrapping_add(1);
        self.printer.flush();
        self.printer.text(&WRONG);
        answer(&mut self.printer, case, &mut self.memory);
        if self.printer.pending().get(WRONG.len()..).unwrap_or(&[]) == told {
            return self.printer.discard();
        }
        self.wrong = self.wrong.wrapping_add(1);
        self.printer.text(b" to ");
        self.printer.text(line);
        self.printer.put(b'\n');
        self.printer.flush();
    }

    fn try_line(&mut self, line: &[u8]) {
        if line.is_empty() || line.starts_with(b"#") {
            return;
        }
        let mut parts = line.split(|b| *b == b'\t');
        let case = parts.next().unwrap_or(line);
        match parts.next() {
            Some(told) => self.judge(line, case, told),
            None => {
                answer(&mut self.printer, case, &mut self.memory);
                self.printer.put(b'\n');
            }
        }
    }

    // The lines that have ended: how many octets they are.
    fn try_ended(&mut self, text: &[u8]) -> usize
        ensures { result ≤ length text.now }
    {
        let Some(last) = text.iter().rposition(|b| *b == b'\n') else {
            return 0;
        };
        for line in text[..last].split(|b| *b == b'\n') {
            self.try_line(line);
        }
        last + 1
    }

    // The lines of an input, in no more than so many reads: no contract says that it ends. They are tried when the text is full or the
    // input has ended. The last line may lack its newline.
    fn try_input<R: Read>(&mut self, input: &mut R, text: &mut [u8]) {
        let mut held = 0;
        for _ in 0..u64::MAX {
            let end = held + read_full(input, &mut text[held..]);
            let tried = self.try_ended(&text[..end]);
            if end < text.len() {
                return self.try_line(&text[tried..end]);
            }
            held = move_to_front(text, tried);
        }
    }

    // The lines of the file of this name. One that cannot be opened has none.
    fn try_file(&mut self, path: &str, text: &mut [u8]) {
        match fs::open(&self.rt, path) {
            Ok(mut file) => self.try_input(&mut file, text),
            Err(e) => {
                let _ = eprintln!(self.rt; "{path}: {e}");
            }
        }
    }

    // The lines of the file that an argument names; those of standard input where it is empty.
    pub(crate) fn try_argument(&mut self, name: &[u8], text: &mut [u8]) {
        // Not `self.rt.stdin()` in the call: the borrow checker does not cover it where `self` is lent to that call.
        let rt = self.rt;
        if name.is_empty() {
            return self.try_input(&mut rt.stdin(), text);
        }
        match str::from_utf8(name) {
            Ok(path) => self.try_file(path, text),
            Err(_) => {
                let _ = eprintln!(rt; "the name of a file is no UTF-8");
            }
        }
    }

    pub(crate) fn end(&mut self) {
        if self.cases != 0 {
            writeln!(self.printer, "{} cases, {} wrong", self.cases, self.wrong);
        }
        self.printer.flush();
    }
}
