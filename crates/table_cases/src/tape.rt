// The records of a line. One is LETTER:NAME:VALUE:BENEATH, as answers have it: name and strings are octets, which go into the pool,
// numbers are hexadecimal; a decimal's value is SCALE,MANTISSA, that of V, F and A is `-`. So S:61:78797a:0 is the string xyz named a.
// #W:W.. are words of a tape as they stand, for one that is malformed; *N, the last word of a line, repeats the record before it. What is
// malformed is None, and so is what the parts have no room for.
use crate::parts::Parts;
use cases::line;
use tables::tape::RECORD_WORDS;

impl Parts {
    fn push_word(&mut self, word: u64) -> Option<()> {
        *self.tape.get_mut(self.words)? = word;
        self.words = self.words.saturating_add(1);
        Some(())
    }

    fn push_two(&mut self, first: u64, second: u64) -> Option<()> {
        self.push_word(first)?;
        self.push_word(second)
    }

    // A string as a span of the pool. Of no octets both words are 0, as document 01 has it for names in arrays.
    fn string(&mut self, word: &[u8]) -> Option<()> {
        let span = line::octets(word, &mut self.pool)?;
        let start = if span.len == 0 { 0 } else { span.start };
        self.push_two(start as u64, span.len as u64)
    }

    // A number, or two with a comma between them.
    fn numbers(&mut self, word: &[u8]) -> Option<()> {
        let mut numbers = word.splitn(2, |b| *b == b',');
        let first = line::number(numbers.next()?)?;
        let second = numbers.next().map_or(Some(0), line::number)?;
        self.push_two(first, second)
    }

    // The value of a record as its two words.
    fn value(&mut self, letter: u8, word: &[u8]) -> Option<()> {
        match (letter, word) {
            (b'S' | b'x', _) => self.string(word),
            (b'V' | b'F' | b'A', b"-") => self.push_two(0, 0),
            (b'V' | b'F' | b'A', _) => None,
            _ => self.numbers(word),
        }
    }

    // NAME:VALUE:BENEATH
    fn record_of(&mut self, letter: u8, text: &[u8]) -> Option<()> {
        let mut parts = text.split(|b| *b == b':');
        let (Some(name), Some(value), Some(beneath), None) = (
            parts.next(),
            parts.next(),
            parts.next(),
            parts.next(),
        ) else {
            return None;
        };
        self.push_word(letter as u64)?;
        self.string(name)?;
        self.value(letter, value)?;
        self.push_word(line::number(beneath)?)
    }

    // Words as they stand.
    fn plain(&mut self, text: &[u8]) -> Option<()> {
        for word in text.split(|b| *b == b':') {
            self.push_word(line::number(word)?)?;
        }
        Some(())
    }

    // The words of the last record; 0 in place of those that there are not.
    fn last_record(&self) -> [u64; RECORD_WORDS] {
        let mut last = [0; RECORD_WORDS];
        for (word, known) in last.iter_mut().rev().zip(self.records().iter().rev()) {
            *word = *known;
        }
        last
    }

    fn push_record(&mut self, record: [u64; RECORD_WORDS]) -> Option<()> {
        let rest = self.tape.as_mut_slice().get_mut(self.words..)?;
        *rest.first_chunk_mut()? = record;
        self.words = self.words.saturating_add(RECORD_WORDS);
        Some(())
    }

    // The last record so many times more, if there is room for all of them.
    fn repeat(&mut self, times: u64) -> Option<()> {
        let room = self.tape.len().saturating_sub(self.words);
        if self.words == 0 || ((room / RECORD_WORDS) as u64) < times {
            return None;
        }
        let last = self.last_record();
        for _ in 0..times {
            self.push_record(last)?;
        }
        Some(())
    }

    // No record has the letter `*`.
    fn one(&mut self, word: &[u8]) -> Option<()> {
        match word {
            [b'*', ..] => None,
            [b'#', words @ ..] => self.plain(words),
            [letter, b':', others @ ..] => self.record_of(*letter, others),
            _ => None,
        }
    }

    // The records up to the line's end. Where a word begins stands its letter, be it a space.
    pub(crate) fn take_records(&mut self, text: &[u8]) -> Option<()> {
        let (records, times) = split_at_times(text);
        let mut begins = true;
        let words = records.split(|b| {
            begins = !begins && *b == b' ';
            begins
        });
        for word in words {
            self.one(word)?;
        }
        match times {
            None => Some(()),
            Some(digits) => self.repeat(line::number(digits)?),
        }
    }
}

// Records, and the digits of a last word *N behind them, if there is one.
fn split_at_times(text: &[u8]) -> (&[u8], Option<&[u8]>) {
    let last = text.iter().rposition(|b| *b == b' ');
    let times = last.and_then(|space| text[space + 1..].strip_prefix(b"*"));
    match (last, times) {
        (Some(space), Some(digits)) => (&text[..space], Some(digits)),
        _ => (text, None),
    }
}
