// Text on standard output, gathered in a lent buffer that is written whenever it is full. A write that fails is told on standard error,
// and its text is lost.
#![tactic(auto)]

ghost use Rattle.std.specs.Prelude.{◌≤◌, length};

use std::fmt;

// No BufWriter of std: that takes its buffer from an allocator, answers each write with a Result that every line would have to look at, and
// cannot forget what is not yet written, as `conformance` does. The first `at` octets of the buffer are not yet written. Functions that
// others call say so too (FitsBuffer), since each promises something.
#[derive(Drop)]
pub struct Printer<'a> {
    rt: HostRuntime,
    out: &'a mut [u8],
    at: usize,
    ghost inside: { at ≤ length out.now },
}

static DIGITS: [u8; 16] = *b"0123456789abcdef";

// Kept out of the functions that print, since few of their calls come to it: they are shorter and faster without it.
#[cold]
#[inline(never)]
fn write(rt: HostRuntime, s: &[u8]) {
    if rt.write_all(s).is_err() {
        let _ = eprintln!(rt; "output failed");
    }
}

impl<'a> Printer<'a> {
    ghost use Rattle.print.specs.Printing.{FitsBuffer, pending_of};
    ghost use Rattle.std.specs.Prelude.{◌≡◌, [], take};

    pub fn new(rt: HostRuntime, out: &'a mut [u8]) -> Printer<'a>
        ensures { pending_of result ≡ [] }
    {
        Printer { rt, out, at: 0 }
    }

    // Of a buffer that has something already: its first n octets are not yet written, or all that it has.
    pub fn with_pending(rt: HostRuntime, out: &'a mut [u8], n: usize) -> Printer<'a>
        ensures { pending_of result ≡ take n out.old }
    {
        let at = n.min(out.len());
        Printer { rt, out, at }
    }

    // What is not yet written.
    pub fn pending(&self) -> &[u8]
        ensures { result.now ≡ pending_of self.now }
    {
        &self.out[..self.at]
    }

    // Forgets what is not yet written.
    pub fn discard(&mut self)
        ensures { pending_of self.new ≡ [] }
    {
        self.at = 0;
    }

    pub fn flush(&mut self)
        ensures { pending_of self.new ≡ [] }
    {
        write(self.rt, &self.out[..self.at]);
        self.at = 0;
    }

    // No text is parted by a write: what does not fit behind the rest is written after it.
    pub fn text(&mut self, s: &[u8])
        ensures { FitsBuffer self.new }
    {
        if self.out.len() - self.at < s.len() {
            self.flush();
            if self.out.len() - self.at < s.len() {
                // It is longer than the whole buffer, which has been written.
                return write(self.rt, s);
            }
        }
        let end = self.at + s.len();
        self.out[self.at..end].copy_from_slice(s);
        self.at = end;
    }

    pub fn put(&mut self, b: u8)
        ensures { FitsBuffer self.new }
    {
        self.text(&[b]);
    }

    // Without leading zeros: what `{:x}` gives, in fewer steps.
    pub fn hex(&mut self, n: u64)
        ensures { FitsBuffer self.new }
    {
        let mut digits = [0u8; 16];
        let zeros = (n | 1).leading_zeros() as usize / 4;
        for (i, digit) in digits.iter_mut().enumerate().skip(zeros) {
            *digit = DIGITS[(n >> (60 - 4 * i)) as usize % 16];
        }
        self.text(&digits[zeros..]);
    }

    // Two digits an octet. Below 0x10 `{:02x}` would give them one by one, and a write could part them.
    pub fn octets(&mut self, s: &[u8])
        ensures { FitsBuffer self.new }
    {
        for b in s {
            let high = DIGITS[(*b / 16) as usize];
            let low = DIGITS[(*b % 16) as usize];
            // Both as one number: a copy of two octets waits where they were stored one by one.
            let digits = u16::from_le_bytes([high, low]);
            self.text(&digits.to_le_bytes());
        }
    }

    // What `write!` calls. Its text never fails to be taken, so there is no result to look at.
    pub fn write_fmt<D: fmt::Display + Drop>(&mut self, text: D)
        ensures { FitsBuffer self.new }
    {
        let _ = fmt::Write::write(self, text);
    }
}

impl fmt::Write for Printer<'_> {
    fn write_str(&mut self, s: &str) -> fmt::Result {
        self.text(s.as_bytes());
        Ok(())
    }
}
